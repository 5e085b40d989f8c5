//! What a layer's state is kept in: a row of cells of 32 bits (`Bank`) that is opened, written and closed.
//! Closing gives the cells that changed, each with its value before (`Diff`), and `undo` puts those back.
//! A `Layout` keeps a typed value in some of the cells, and a `Timer` in one cell that need not be written
//! as time goes on. `Bank::close_onto` brings the differences of several layers under one numbering of cells,
//! and the functions in `laws` state what holds of all differences.
#![tactic(auto)]

pub mod bank;
pub mod diff;
pub mod laws;
pub mod layout;
pub mod lists;
pub mod reversible;
pub mod timer;

pub use bank::Bank;
pub use diff::Diff;
pub use layout::Layout;
pub use reversible::{Reversible, abandon};
pub use timer::Timer;
