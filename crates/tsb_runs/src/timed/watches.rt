//! Values that are watched.

use tsb_text::{Detector, Phase, Watch};

/// Each kind of value.
pub fn watches() -> [(&'static str, Watch); 7] {
    [
        ("interval 2", Watch::Interval(Phase::of(2))),
        ("ped 2", Watch::Ped(Phase::of(2))),
        ("call 3", Watch::Call(Phase::of(3))),
        ("output 1", Watch::Output(Detector::of(1))),
        ("alarm 1", Watch::Alarm(Detector::of(1))),
        ("stage", Watch::Stage),
        ("trip", Watch::Trip),
    ]
}
