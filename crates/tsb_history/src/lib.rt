//! The inputs of a bench that were not undone, each as one record: its kind, and every cell that it changed with the
//! value that the cell had before. All records are in one vector of bytes, one after the other, the newest last. They
//! are read from the end, so the newest is found and taken away first. Only `History::reserve` and `History::clone_in`
//! ask for memory.
#![tactic(auto)]

mod bytes;
mod entries;
mod history;
mod kinds;
mod laws;
mod record;
mod walk;

pub use entries::Entries;
pub use history::History;
pub use kinds::Kind;
pub use laws::bytes_tell_records;
pub use record::Record;
pub use walk::WalkBack;
