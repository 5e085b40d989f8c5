//! The advices on a plan, by number.
ghost use Rattle.std.specs.Prelude.{◌≡◌};
ghost use Rattle.tsb_review.specs.Advices.{shape};

use crate::place::Shape;

/// An advice on a plan that meets the rules: it can run, and this may still be wrong.
///
/// They stand in the order in which a review gives them: on service (A1 to A7), pedestrians (A8 to A14), clearance (A15
/// and A16), actuation (A17 to A26), coordination (A27 to A32), preempts (A33 to A38), overlaps (A39 to A41), and
/// options of coordination (A42 to A47). Those from A48 on came later, on any of these. A31 is not used any more.
#[derive(Clone, Copy)]
pub enum Advice {
    /// An enabled phase is called by no detector, button, recall or split mode.
    A1,
    /// A vehicle detector has settings and calls no phase.
    A2,
    /// Two phases of one side and of two rings are not concurrent, so one can wait without end while the other rests.
    A3,
    /// A coordinated phase is not concurrent with a phase of its side, so it may never be served.
    A4,
    /// All phases of a ring have maximum recall, so its times are fixed.
    A5,
    /// A phase has a soft recall, and another recall that calls it at all times.
    A6,
    /// A soft recall never acts in free operation, as some phase always waits by its recall.
    A7,
    /// A walk has no pedestrian clearance.
    A8,
    /// A walk is under 4 seconds.
    A9,
    /// A pedestrian clearance has no walk.
    A10,
    /// A walk is called by no button and no pedestrian recall.
    A11,
    /// Walk and clearance are longer than the green that the split leaves.
    A12,
    /// Walk and clearance are longer than the maximum.
    A13,
    /// A coordinated phase rests in walk, and its clearance can end after the force-off instant of a phase that waits.
    A14,
    /// A phase has no red clearance, and there are phases across the barrier.
    A15,
    /// The red revert of some phase is under 2 seconds.
    A16,
    /// The passage is 0, and no detector of the phase extends it.
    A17,
    /// The minimum gap is below the passage, and the gap is the minimum gap at once.
    A18,
    /// The gap has times or cars of reduction, and the minimum gap is the passage.
    A19,
    /// The gap is not reduced before the maximum is over.
    A20,
    /// A variable initial never exceeds the minimum green.
    A21,
    /// An added or maximum initial has no variable initial to use it.
    A22,
    /// A dynamic maximum has a limit, and a step of 0.
    A23,
    /// A dynamic maximum has a step, and a limit of 0.
    A24,
    /// The delay of a vehicle detector is longer than the maximum of each phase that conflicts with its own.
    A25,
    /// A vehicle detector extends a phase with maximum recall.
    A26,
    /// A split leaves under 1 second over minimum green, yellow and red clearance.
    A27,
    /// Walk and clearance overrun the split: a phase that waits begins at its force-off instant or after it, and demand
    /// holds it.
    A28,
    /// A pattern omits a phase that has a recall.
    A29,
    /// A pattern is the same as one before it.
    A30,
    /// Coordinated phases without a permissive time yield in one tick of a cycle, and a phase of the pattern waits for
    /// a call.
    A32,
    /// A phase is both a track and a dwell phase of a preempt.
    A33,
    /// A preempt has no delay and no track phase, and there is a sign of a railroad.
    A34,
    /// The minimum duration of a preempt is longer than its maximum presence.
    A35,
    /// A preempt ends a walk at once.
    A36,
    /// A preempt takes a whole pedestrian clearance away.
    A37,
    /// A preempt has times and no dwell phase.
    A38,
    /// An overlap includes phases of both rings that are not concurrent.
    A39,
    /// A phase is both an included and a modifier phase of an overlap.
    A40,
    /// No phase of an overlap follows another of it.
    A41,
    /// The maximum that acts in a pattern is under the green that the split leaves.
    A42,
    /// The permissive time can leave a phase that waits less than its minimum green before its force-off instant.
    A43,
    /// A pattern leads and lags, and its coordinated splits end at one time.
    A44,
    /// Pedestrian recycle of a phase that no used pattern has as a coordinated phase with a walk.
    A45,
    /// A coordinated phase has pedestrian recycle and pedestrian recall, so its walk begins again after each clearance.
    A46,
    /// A correction mode without a limit, or a limit without a mode: local counters come into step at once.
    A47,
    /// A vehicle detector with a diagnosis makes no call while it has failed, and nothing else calls its phase.
    A48,
    /// The maximum presence of a vehicle detector is at most two cycles of a pattern.
    A49,
    /// A preempt without track phases has no maximum presence.
    A50,
    /// The dwell of a preempt leaves a ring without a phase.
    A51,
    /// Of the phases of a ring on a side none has dual entry, or more than one, and the other ring has one there.
    A52,
    /// A non-locking phase has detectors with a delay alone, so a car that stops beyond them is forgotten.
    A53,
    /// A pattern has a permissive time, and a green that misses its force-off by it is held for up to a cycle.
    A54,
    /// A phase has calls of its own, and each used pattern omits it.
    A55,
    /// An overlap, as a right turn where phases stand as usual, meets a phase or its walk while both are green.
    A56,
    /// The red clearance is over 0 and under 0.5 seconds.
    A57,
    /// The passage is over 0 and under 1 second, and no detector of the phase extends it.
    A58,
    /// Values are given for a phase that is not enabled.
    A59,
    /// No entry of the schedule holds on some day.
    A60,
    /// No event of a day plan selects a used pattern, in a plan with a schedule.
    A61,
    /// An action is in force for under a cycle of the pattern that it selects.
    A62,
    /// Phases of two rings may be in service together, and no phase has dual entry.
    A63,
}

impl Advice {
    /// All advices, in order.
    pub const ALL: [Advice; 62] = [
        Advice::A1,
        Advice::A2,
        Advice::A3,
        Advice::A4,
        Advice::A5,
        Advice::A6,
        Advice::A7,
        Advice::A8,
        Advice::A9,
        Advice::A10,
        Advice::A11,
        Advice::A12,
        Advice::A13,
        Advice::A14,
        Advice::A15,
        Advice::A16,
        Advice::A17,
        Advice::A18,
        Advice::A19,
        Advice::A20,
        Advice::A21,
        Advice::A22,
        Advice::A23,
        Advice::A24,
        Advice::A25,
        Advice::A26,
        Advice::A27,
        Advice::A28,
        Advice::A29,
        Advice::A30,
        Advice::A32,
        Advice::A33,
        Advice::A34,
        Advice::A35,
        Advice::A36,
        Advice::A37,
        Advice::A38,
        Advice::A39,
        Advice::A40,
        Advice::A41,
        Advice::A42,
        Advice::A43,
        Advice::A44,
        Advice::A45,
        Advice::A46,
        Advice::A47,
        Advice::A48,
        Advice::A49,
        Advice::A50,
        Advice::A51,
        Advice::A52,
        Advice::A53,
        Advice::A54,
        Advice::A55,
        Advice::A56,
        Advice::A57,
        Advice::A58,
        Advice::A59,
        Advice::A60,
        Advice::A61,
        Advice::A62,
        Advice::A63,
    ];

    /// What the advice is given for.
    pub fn shape(self) -> Shape
        ensures { result ≡ shape self }
    {
        match self {
            Advice::A1
            | Advice::A6
            | Advice::A7
            | Advice::A8
            | Advice::A9
            | Advice::A10
            | Advice::A11
            | Advice::A13
            | Advice::A15
            | Advice::A17
            | Advice::A18
            | Advice::A19
            | Advice::A20
            | Advice::A21
            | Advice::A22
            | Advice::A23
            | Advice::A24
            | Advice::A45
            | Advice::A53
            | Advice::A55
            | Advice::A57
            | Advice::A58
            | Advice::A59 => Shape::Phase,
            Advice::A2 | Advice::A25 | Advice::A26 | Advice::A48 | Advice::A49 => Shape::Detector,
            Advice::A3 => Shape::Phases,
            Advice::A4
            | Advice::A12
            | Advice::A14
            | Advice::A27
            | Advice::A28
            | Advice::A29
            | Advice::A42
            | Advice::A43
            | Advice::A46 => Shape::PatternPhase,
            Advice::A5 => Shape::Ring,
            Advice::A52 => Shape::RingSide,
            Advice::A16 | Advice::A47 | Advice::A60 | Advice::A63 => Shape::Unit,
            Advice::A61 => Shape::Pattern,
            Advice::A62 => Shape::DayEvent,
            Advice::A30 | Advice::A32 | Advice::A44 | Advice::A54 => Shape::Pattern,
            Advice::A33 | Advice::A36 | Advice::A37 | Advice::A51 => Shape::PreemptPhase,
            Advice::A34 | Advice::A35 | Advice::A38 | Advice::A50 => Shape::Preempt,
            Advice::A39 | Advice::A41 => Shape::Overlap,
            Advice::A40 | Advice::A56 => Shape::OverlapPhase,
        }
    }
}
