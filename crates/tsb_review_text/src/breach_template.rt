//! The lines of breaches, with letters where numbers stand.
ghost use Rattle.std.specs.Prelude.{◌≡◌};
ghost use Rattle.tsb_review_text.specs.BreachTemplates.{breach_template};

use tsb_breaches::RuleFault;

/// The text of a breach. P to T stand for the numbers `a` to `e`; W to Z, and U, for the same as times, in seconds.
pub(crate) fn breach_template(fault: RuleFault) -> &'static [u8]
    ensures { result.now ≡ breach_template fault }
{
    match fault {
        RuleFault::K1 => b"K1 unit: no phase is enabled",
        RuleFault::K2Ring => b"K2 phase P: its ring is Q, not 1 or 2",
        RuleFault::K2Side => b"K2 phase P: its side is Q, not 1 to 4",
        RuleFault::K3 => b"K3 phase P: it is not enabled, and its concurrency list is Q",
        RuleFault::K4Unused =>
            b"K4 phase P: its concurrency list names phase Q, which is not enabled",
        RuleFault::K4Ring => b"K4 phase P: its concurrency list names phase Q of the same ring, R",
        RuleFault::K4Side => {
            b"K4 phase P: it is on side R, and its concurrency list names phase Q on side S"
        }
        RuleFault::K5 => {
            b"K5 phase P: its concurrency list names phase Q, whose list does not name phase P"
        }
        RuleFault::K6Unused => b"K6 sequence P, ring Q: place R has phase S, which is not enabled",
        RuleFault::K6Ring => b"K6 sequence P, ring Q: place R has phase S, which is of ring T",
        RuleFault::K6Missing => b"K6 sequence P, ring Q: phase R is missing",
        RuleFault::K6Again => {
            b"K6 sequence P, ring Q: place R has phase S, which comes again behind it"
        }
        RuleFault::K6Side => {
            b"K6 sequence P, ring Q: place R has phase S, and phase T of a lower side comes behind it"
        }
        RuleFault::K6Gap => b"K6 sequence P, ring Q: place R is 0, and the next has phase S",
        RuleFault::K7Unused => b"K7 sequence P, ring Q: place R has phase S, which is not enabled",
        RuleFault::K7Ring => b"K7 sequence P, ring Q: place R has phase S, which is of ring T",
        RuleFault::K7Missing => b"K7 sequence P, ring Q: phase R is missing",
        RuleFault::K7Again => {
            b"K7 sequence P, ring Q: place R has phase S, which comes again behind it"
        }
        RuleFault::K7Side => {
            b"K7 sequence P, ring Q: place R has phase S, and phase T of a lower side comes behind it"
        }
        RuleFault::K7Gap => b"K7 sequence P, ring Q: place R is 0, and the next has phase S",
        RuleFault::K8 => b"K8 phase P: its yellow is X s, under 3 s",
        RuleFault::K9 => b"K9 phase P: its minimum gap of X s is over its passage of Y s",
        RuleFault::K10Maximum1 => b"K10 phase P: phaseMaximum1 is Q, the minimum green R",
        RuleFault::K10Maximum2 => b"K10 phase P: phaseMaximum2 is Q, the minimum green R",
        RuleFault::K11 => b"K11 phase P: it has a pedestrian recall and no walk",
        RuleFault::K12 => b"K12 vehicle detector P: it calls phase Q, which is not enabled",
        RuleFault::K13Unused =>
            b"K13 pedestrian detector P: it calls phase Q, which is not enabled",
        RuleFault::K13Walk => b"K13 pedestrian detector P: it calls phase Q, which has no walk",
        RuleFault::K14 => b"K14 overlap P: it includes phase Q, which is not enabled",
        RuleFault::K15TrackUnused => b"K15 preempt P: its track phase Q is not enabled",
        RuleFault::K15DwellUnused => b"K15 preempt P: its dwell phase Q is not enabled",
        RuleFault::K15ExitUnused => b"K15 preempt P: its exit phase Q is not enabled",
        RuleFault::K15Track => b"K15 preempt P: its track phases Q and R are not concurrent",
        RuleFault::K15Dwell => b"K15 preempt P: its dwell phases Q and R are not concurrent",
        RuleFault::K15Exit => b"K15 preempt P: its exit phases Q and R are not concurrent",
        RuleFault::K16Track => b"K16 preempt P: it has track phases and no dwell phases",
        RuleFault::K16Exit => b"K16 preempt P: it has exit phases and no dwell phases",
        RuleFault::K17Offset => b"K17 pattern P: its offset of X s is not below its cycle of Y s",
        RuleFault::K17Split => b"K17 pattern P: its split number is Q, not 1 to 8",
        RuleFault::K17Sequence => b"K17 pattern P: its sequence number is Q, not 1 to 4",
        RuleFault::K17Blank => b"K17 pattern P: its sequence Q is all zeros",
        RuleFault::K18 => {
            b"K18 pattern P, phase Q: its split is Y s, its minimum green, yellow and red clearance are Z s"
        }
        RuleFault::K19Rings => b"K19 pattern P, side Q: ring 1 has Y s, ring 2 has Z s",
        RuleFault::K19Cycle => b"K19 pattern P: its sides add up to X s, its cycle is Y s",
        RuleFault::K20None => b"K20 pattern P: no phase is coordinated",
        RuleFault::K20Unused => b"K20 pattern P: the coordinated phase Q is not enabled",
        RuleFault::K20Omitted => b"K20 pattern P: the coordinated phase Q is omitted",
        RuleFault::K20Sides =>
            b"K20 pattern P: the coordinated phases Q and R are on sides S and T",
        RuleFault::K20Apart => b"K20 pattern P: the coordinated phases Q and R are not concurrent",
        RuleFault::K20Ends => b"K20 pattern P: the coordinated phases Q and R end at Z s and U s",
        RuleFault::K20Ring => b"K20 pattern P, ring Q: R of its phases are coordinated, not 1",
        RuleFault::K21Unused => b"K21 overlap P: its modifier phase Q is not enabled",
        RuleFault::K21Type => b"K21 overlap P: it has modifier phases, and its type is Q",
        RuleFault::K22 => {
            b"K22 phase P: its dynamic maximum limit of X s is under its minimum green of Y s"
        }
        RuleFault::K23 =>
            b"K23 pattern P: its permissive time of X s is not below its cycle of Y s",
        RuleFault::K24 => b"K24 day plan P: events Q and R both come at hour S, minute T",
        RuleFault::K25 => b"K25 entry P: its day plan Q has no event",
        RuleFault::K26 => b"K26 day plan P, event Q: its action R is not defined",
        RuleFault::K27Number => b"K27 action P: it asks for pattern Q, and there are 16",
        RuleFault::K27Unused => b"K27 action P: it asks for pattern Q, which is not used",
        RuleFault::K28Empty => b"K28 overlap P: it is an arrow, and includes no phase",
        RuleFault::K28Turns => b"K28 overlap P: it is an arrow with Q modifier phases, not 1",
        RuleFault::K28Together => b"K28 overlap P: its modifier phase goes with phase Q",
        RuleFault::K29Yellow => b"K29 overlap P: its trailing yellow of X s is under 3.0 s",
        RuleFault::K29Type => b"K29 overlap P: it trails, and its type is Q",
    }
}
