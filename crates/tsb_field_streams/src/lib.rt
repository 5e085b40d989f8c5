//! Streams of field files: lines of a controller's event log come in, and rows of a log of inputs go out.
#![tactic(auto)]

mod clocks;
mod error;
mod fault_lines;
mod filter;
mod held;
mod laws;
mod order_laws;
mod rows;
mod stream;
mod zone_laws;

pub use error::{Disorder, FilterError};
pub use fault_lines::{FaultLine, LONGEST};
pub use filter::{
    Channel, Channels, Devices, Filter, Gaps, LINE, LeftOut, MOST_HELD, MOST_NAMED, RowOptions,
    Summary, append_channels, append_devices, are_several,
};
pub use held::Held;
pub use laws::late_rows_tell_what_sorted_rows_tell;
pub use order_laws::sorted_rows_are_in_order;
pub use stream::{EVENTS, log};
pub use zone_laws::zones_are_seen;
