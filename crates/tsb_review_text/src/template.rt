//! The lines of advices, with letters where numbers stand.
ghost use Rattle.std.specs.Prelude.{◌≡◌};
ghost use Rattle.tsb_plan.specs.PlanOf.{plan_of};
ghost use Rattle.tsb_review_text.specs.Templates.{template, wording};

use tsb_plan::Plan;
use tsb_review::{Advice, Finding, crosses_walk, ends_walk_for_track};

/// The text of a finding: that of its advice, but for a walk that ends for a track, and for a right turn over a crossing.
pub(crate) fn wording(plan: &Plan, finding: &Finding) -> &'static [u8]
    ensures { result.now ≡ wording (plan_of plan.now) finding.now }
{
    if ends_walk_for_track(plan, finding) {
        b"A36 preempt P: it can end a walk of phase Q at once, as is allowed where a track has to be cleared"
    } else if crosses_walk(plan, finding) {
        b"A56 overlap P: if phases stand as usual, it turns right beside phase Q over its crossing, and is green with its walk"
    } else {
        template(finding.advice)
    }
}

/// The text of an advice. P, Q, R and S stand for the numbers `a`, `b`, `c` and `d` of a finding; W, X, Y and Z for the
/// same as times, in seconds, and U for the number `e` as a time.
fn template(advice: Advice) -> &'static [u8]
    ensures { result.now ≡ template advice }
{
    match advice {
        Advice::A1 => b"A1 phase P: no detector, button, recall or split mode calls it",
        Advice::A2 => b"A2 vehicle detector P: it calls no phase, so its settings have no effect",
        Advice::A3 => {
            b"A3 phases P and Q: they are on one side and not concurrent, so a call of one can wait for ever while the other rests"
        }
        Advice::A4 => {
            b"A4 phase P: it is coordinated in pattern S and not concurrent with phase R of its side, so it may never be served"
        }
        Advice::A5 => b"A5 ring P: all its phases have maximum recall, so its times are fixed",
        Advice::A6 => {
            b"A6 phase P: its soft recall never acts, since another recall calls it at all times"
        }
        Advice::A7 => {
            b"A7 phase P: its soft recall never acts in free operation, since phases Q and R are recalled and not concurrent"
        }
        Advice::A8 => b"A8 phase P: its walk of X s has no pedestrian clearance",
        Advice::A9 => b"A9 phase P: its walk of X s is under 4 s",
        Advice::A10 => {
            b"A10 phase P: its pedestrian clearance of X s is never shown, since it has no walk"
        }
        Advice::A11 => {
            b"A11 phase P: its walk of X s is never shown, since no button and no pedestrian recall calls it"
        }
        Advice::A12 => {
            b"A12 phase P: its walk and clearance of X s are longer than the Y s of green that its split leaves in pattern S"
        }
        Advice::A13 => {
            b"A13 phase P: its walk and clearance of X s are longer than its maximum of Y s"
        }
        Advice::A14 => {
            b"A14 phase P: it rests in walk, and its clearance of X s can end after the force-off of phase R in pattern S"
        }
        Advice::A15 => {
            b"A15 phase P: its red clearance is 0 s, and phases across the barrier conflict with it"
        }
        Advice::A16 => b"A16 unit: red reverts are under 2 s, that of phase P is X s",
        Advice::A17 => {
            b"A17 phase P: its passage is 0 s and no detector extends it, so any gap between cars ends its green"
        }
        Advice::A18 => {
            b"A18 phase P: its gap is X s as soon as a conflict begins, and not its passage of Y s, since its times of reduction are 0 s"
        }
        Advice::A19 => {
            b"A19 phase P: its gap is never reduced, since its minimum gap is its passage of X s"
        }
        Advice::A20 => {
            b"A20 phase P: its time before reduction of X s is not below its maximum of Y s, so its gap is not reduced in time"
        }
        Advice::A21 => b"A21 phase P: its variable initial is never over its minimum green of X s",
        Advice::A22 => {
            b"A22 phase P: its added initial has no effect, since phaseVariableInitial is 0"
        }
        Advice::A23 => b"A23 phase P: its dynamic maximum has no effect, since its step is 0 s",
        Advice::A24 => b"A24 phase P: its dynamic maximum has no effect, since its limit is 0 s",
        Advice::A25 => {
            b"A25 vehicle detector P: its delay of X s is longer than the maximum of each phase that conflicts with phase R"
        }
        Advice::A26 => {
            b"A26 vehicle detector P: its extension of X s has no effect, since phase R has maximum recall"
        }
        Advice::A27 => {
            b"A27 phase P: its split leaves X s over minimum green, yellow and red clearance in pattern S"
        }
        Advice::A28 => {
            b"A28 phase P: its walk and clearance can end after the force-off of phase R in pattern S, which then lasts up to a cycle"
        }
        Advice::A29 => b"A29 phase P: its recall has no effect in pattern S, which omits it",
        Advice::A30 => b"A30 pattern P: it is the same as pattern Q",
        Advice::A32 => {
            b"A32 pattern P: its coordinated phases yield in one tick of each cycle of X s, so a later call waits for the next one"
        }
        Advice::A33 => {
            b"A33 preempt P: phase Q is a track phase and a dwell phase, so cars go on to come over the track"
        }
        Advice::A34 => b"A34 preempt P: it has no delay and no track phases, so it clears no track",
        Advice::A35 => {
            b"A35 preempt P: its minimum duration of X s is longer than its maximum presence of Y s"
        }
        Advice::A36 => {
            b"A36 preempt P: its minimum walk is 0 s, so it can end a walk of phase Q at once"
        }
        Advice::A37 => {
            b"A37 preempt P: its pedestrian clearance is 0 s, so phase Q can end with people on its crossing"
        }
        Advice::A38 => b"A38 preempt P: it has no dwell phases, so its times have no effect",
        Advice::A39 => {
            b"A39 overlap P: it includes phases Q and R of two rings that are not concurrent, so it turns yellow between them"
        }
        Advice::A40 => {
            b"A40 overlap P: phase Q is an included and a modifier phase, so it is not green with it"
        }
        Advice::A41 => {
            b"A41 overlap P: no phase of it follows another in a ring, so it shows what its phases show"
        }
        Advice::A42 => {
            b"A42 phase P: its maximum of X s is under the Y s of green that its split leaves in pattern S"
        }
        Advice::A43 => {
            b"A43 phase P: its permissive time of X s is over the U s that leave phase R its minimum green before its force-off in pattern S"
        }
        Advice::A44 => {
            b"A44 pattern P: patternLeadLag has no effect, since the splits of its coordinated phases end at one time"
        }
        Advice::A45 => {
            b"A45 phase P: its pedestrian recycle has no effect, since no used pattern has it as a coordinated phase with a walk"
        }
        Advice::A46 => {
            b"A46 phase P: its walk begins again after each clearance in pattern S, since it has pedestrian recall and pedestrian recycle"
        }
        Advice::A47 => {
            b"A47 unit: local counters come into step at once, since coordCorrectionMode is P and coordCorrectionLimit is Q"
        }
        Advice::A48 => {
            b"A48 vehicle detector P: while it has an alarm no car calls phase R, since its fail time is 0 s"
        }
        Advice::A49 => {
            b"A49 vehicle detector P: its maximum presence of X s is at most two cycles of Y s in pattern S, so a queue can trip it"
        }
        Advice::A50 => {
            b"A50 preempt P: it has no maximum presence and no track phases, so an input that stays on holds it for ever"
        }
        Advice::A51 => {
            b"A51 preempt P: its dwell serves phase Q alone, and leaves the other ring without a phase"
        }
        Advice::A52 => {
            b"A52 ring P, side Q: R of its phases have dual entry, not 1, and the other ring has one there"
        }
        Advice::A53 => {
            b"A53 phase P: it is non-locking, and each of its detectors has a delay, so a car that stops beyond them is forgotten"
        }
        Advice::A54 => {
            b"A54 pattern P: its permissive time of X s lets greens begin late, and one that misses its force-off can last up to a cycle"
        }
        Advice::A55 => {
            b"A55 phase P: it has calls of its own, and each used pattern omits it, so in coordination they have no effect"
        }
        Advice::A56 => {
            b"A56 overlap P: if phases stand as usual, it turns right beside phase R into the leg that phase Q goes into, and both can be green"
        }
        Advice::A57 => {
            b"A57 phase P: its red clearance of X s is under 0.5 s, as if it were given in seconds and not in tenths"
        }
        Advice::A58 => {
            b"A58 phase P: its passage of X s is under 1 s and no detector extends it, as if it were given in seconds and not in tenths"
        }
        Advice::A59 => { b"A59 phase P: it is not enabled, so its values have no effect, such as" }
        Advice::A60 =>
            b"A60 unit: no entry of the schedule holds on day Q of month P where that is weekday R, so the action of the day before stays",
        Advice::A61 => b"A61 pattern P: it is used, and no event of a day plan selects it",
        Advice::A62 =>
            b"A62 day plan P, event Q: another event comes before a cycle of its pattern R is over",
        Advice::A63 =>
            b"A63 unit: no phase has dual entry, so a ring rests in red while the other serves a phase alone",
    }
}
