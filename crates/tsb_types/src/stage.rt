//! The stage of a preempt.

/// The stage of the preempt in service. They come in this order; a preempt without track phases begins with
/// `Dwell`, and one without exit phases ends with it.
#[derive(Clone, Copy, PartialEq, Eq)]
pub enum Stage {
    /// The track phases are served, for `preemptTrackGreen`.
    Track,
    /// The dwell phases are served.
    Dwell,
    /// The exit phases are served, and then the preempt is over.
    Exit,
}
