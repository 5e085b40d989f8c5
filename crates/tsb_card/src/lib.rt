//! The program card of a conflict monitor: which pairs of its 16 channels have to be permissive, of a plan; the lines of a
//! card, and where a card differs.
//!
//! A pair is permissive where a plan may light both of its channels at once. Channels are those of NTCIP 1202 (channel
//! control source and type); which are paired is the profile's own. Nothing here takes memory.
#![tactic(auto)]

mod card;
mod channels;
pub mod laws;
mod lines;
mod read;

pub use card::{CHANNELS, Card};
pub use channels::card_of;
pub use lines::{differs, write_card, write_differences};
pub use read::{CardFault, LIMIT, read_card};
