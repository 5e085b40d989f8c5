//! Plan texts, and the lines of their faults.

use std::alloc::{AllocError, Global};
use tsb_objects::{Object, PLAN_CELLS, Plan, Rule};
use tsb_plan_text::{LIMIT, PlanError, read_plan};

/// The built-in plan of two phases.
const TWO: &str =
    r#"{"version":1,"phaseEnabled":{"2":1,"4":1},"phaseRing":{"2":1,"4":1},"phaseSide":{"2":1,"4":2},"phaseMinimumGreen":{"2":5,"4":5},"phaseMaximum1":{"2":10,"4":8},"phaseMaximum2":{"2":10,"4":8},"phaseYellowChange":{"2":30,"4":30},"phaseRedClear":{"2":10,"4":10},"phaseMaxRecall":{"2":1,"4":1},"sequenceData":{"1":2,"2":4}}"#;

/// The same with a yellow change of phase 2 that is too short.
const SHORT_YELLOW: &str =
    r#"{"version":1,"phaseEnabled":{"2":1,"4":1},"phaseRing":{"2":1,"4":1},"phaseSide":{"2":1,"4":2},"phaseMinimumGreen":{"2":5,"4":5},"phaseMaximum1":{"2":10,"4":8},"phaseMaximum2":{"2":10,"4":8},"phaseYellowChange":{"2":29,"4":30},"phaseRedClear":{"2":10,"4":10},"phaseMaxRecall":{"2":1,"4":1},"sequenceData":{"1":2,"2":4}}"#;

/// The built-in plan of eight phases, which version 1 has in tables of 8.
const QUAD: &str = r#"{
  "version": 1,
  "phaseEnabled": {"1":1,"2":1,"3":1,"4":1,"5":1,"6":1,"7":1,"8":1},
  "phaseRing": {"1":1,"2":1,"3":1,"4":1,"5":2,"6":2,"7":2,"8":2},
  "phaseSide": {"1":1,"2":1,"3":2,"4":2,"5":1,"6":1,"7":2,"8":2},
  "phaseConcurrency": {"1":48,"2":48,"3":192,"4":192,"5":3,"6":3,"7":12,"8":12},
  "phaseMinimumGreen": {"1":5,"2":5,"3":5,"4":5,"5":5,"6":5,"7":5,"8":5},
  "phaseMaximum1": {"1":20,"2":20,"3":20,"4":20,"5":20,"6":20,"7":20,"8":20},
  "phaseMaximum2": {"1":20,"2":20,"3":20,"4":20,"5":20,"6":20,"7":20,"8":20},
  "phasePassage": {"1":20,"2":20,"3":20,"4":20,"5":20,"6":20,"7":20,"8":20},
  "phaseMinimumGap": {"1":20,"2":20,"3":20,"4":20,"5":20,"6":20,"7":20,"8":20},
  "phaseYellowChange": {"1":30,"2":30,"3":30,"4":30,"5":30,"6":30,"7":30,"8":30},
  "phaseRedClear": {"1":10,"2":10,"3":10,"4":10,"5":10,"6":10,"7":10,"8":10},
  "phaseWalk": {"2":4},
  "phasePedestrianClear": {"2":6},
  "phaseMinRecall": {"2":1,"6":1},
  "phaseDualEntry": {"2":1,"4":1,"6":1,"8":1},
  "vehicleDetectorCallPhase": {"1":1,"2":2,"3":3,"4":4,"5":5,"6":6,"7":7,"8":8},
  "pedestrianDetectorCallPhase": {"2":2},
  "splitTime": {"1":15,"2":25,"3":15,"4":25,"5":15,"6":25,"7":15,"8":25},
  "splitCoordPhase": {"2":1,"6":1},
  "sequenceData": {"1":1,"2":2,"3":3,"4":4,"9":5,"10":6,"11":7,"12":8},
  "overlapIncludedPhases": {"1":3},
  "unitRedRevert": {"1":20},
  "patternCycleTime": {"1":80,"2":80},
  "patternOffsetTime": {"2":79},
  "patternSplitNumber": {"1":1,"2":1},
  "patternSequenceNumber": {"1":1,"2":1},
  "preemptDwellPhase": {"1":132,"2":72},
  "preemptMinimumGreen": {"1":2,"2":2},
  "preemptMinimumWalk": {"1":2,"2":2},
  "preemptEnterPedClear": {"1":3,"2":3},
  "preemptMinimumDuration": {"1":10}
}
"#;

/// What reading the text answers, printed: the fault's line, or `read`.
fn answer(alloc: Global, text: &str) -> Result<String, AllocError> {
    match read_plan(alloc, text.as_bytes()) {
        Ok(_) => String::from_str(alloc, "read"),
        Err(fault) => format!(in alloc; "{fault}"),
    }
}

/// Whether this is what reading the text answers.
fn is_answered(alloc: Global, text: &str, line: &str) -> bool {
    match answer(alloc, text) {
        Ok(given) => given.as_str() == line,
        Err(_) => false,
    }
}

/// Whether these are what reading the texts answers.
fn are_answered(alloc: Global, wanted: &[(&str, &str)]) -> bool {
    for (text, line) in wanted {
        if !is_answered(alloc, text, line) {
            return false;
        }
    }
    true
}

/// A text of version 1 with these members.
fn with_members(alloc: Global, members: &str) -> Result<String, AllocError> {
    let mut text = String::from_str(alloc, "{\"version\":1,")?;
    text.push_str(members)?;
    text.push_str("}")?;
    Ok(text)
}

/// Whether these are what reading answers for texts of version 1 with these members.
fn members_are_answered(alloc: Global, wanted: &[(&str, &str)]) -> bool {
    for (members, line) in wanted {
        match with_members(alloc, members) {
            Ok(text) if is_answered(alloc, text.as_str(), line) => {}
            _ => return false,
        }
    }
    true
}

/// The text `start` with blanks up to the length.
fn padded(alloc: Global, start: &str, len: usize) -> Result<String, AllocError> {
    let mut text = String::from_str(alloc, start)?;
    for _ in start.len()..len {
        text.push(' ')?;
    }
    Ok(text)
}

/// Whether this is what reading answers for the text `start` with blanks up to the length.
fn padded_is_answered(alloc: Global, start: &str, len: usize, line: &str) -> bool {
    match padded(alloc, start, len) {
        Ok(text) => is_answered(alloc, text.as_str(), line),
        Err(_) => false,
    }
}

/// Whether these are what reading answers for the texts with blanks up to the greatest length.
fn all_padded_are_answered(alloc: Global, wanted: &[(&str, &str)]) -> bool {
    for (start, line) in wanted {
        if !padded_is_answered(alloc, start, LIMIT, line) {
            return false;
        }
    }
    true
}

/// Texts, each with what reading answers for it.
const TEXTS: [(&str, &str); 27] = [
    (r#""#, "plan: not JSON"),
    (r#"{"version":1"#, "plan: not JSON"),
    (r#"[]"#, "plan: not a table"),
    (r#"{}"#, "plan: version"),
    (r#"{"version":1.0}"#, "plan: version"),
    (r#"{"version":"1"}"#, "plan: version"),
    (r#"{"version":1,"version":4}"#, "plan: version"),
    (r#"{"version":4,"version":1}"#, "plan: rule K1"),
    (r#"{"version":3}"#, "plan: rule K1"),
    (r#"{"version":1}"#, "plan: rule K1"),
    (
        r#"{"version":2,"overlapAcrossRings":{}}"#,
        "plan: overlapAcrossRings: no such object",
    ),
    (
        r#"{"version":3,"overlapAcrossRings":{"17":1}}"#,
        "plan: overlapAcrossRings.17: no such object",
    ),
    (
        r#"{"version":2,"preemptChoosesAnew":{}}"#,
        "plan: preemptChoosesAnew: no such object",
    ),
    (
        r#"{"version":3,"preemptChoosesAnew":{"4":2}}"#,
        "plan: preemptChoosesAnew.4: out of range",
    ),
    (
        r#"{"version":2,"coordReference":{}}"#,
        "plan: coordReference: no such object",
    ),
    (
        r#"{"version":3,"coordReference":{"1":6}}"#,
        "plan: coordReference.1: out of range",
    ),
    (
        r#"{"version":2,"overlapType":{"1":2}}"#,
        "plan: overlapType.1: out of range",
    ),
    (r#"{"version":3,"overlapType":{"1":2}}"#, "plan: rule K1"),
    (
        r#"{"version":2,"overlapTrailGreen":{}}"#,
        "plan: overlapTrailGreen: no such object",
    ),
    (
        r#"{"version":3,"overlapTrailGreen":{"16":256}}"#,
        "plan: overlapTrailGreen.16: out of range",
    ),
    (
        r#"{"version":3,"channelControlType":{"17":1}}"#,
        "plan: channelControlType.17: no such object",
    ),
    (
        r#"{"version":3,"actionArrowOmit":{"32":65536}}"#,
        "plan: actionArrowOmit.32: out of range",
    ),
    (r#"{"version":2,"notes":{}}"#, "plan: notes: no such object"),
    (r#"{"version":3,"notes":[]}"#, "plan: notes: not a table"),
    (
        r#"{"version":3,"notes":{"site":1}}"#,
        "plan: notes.site: not a text",
    ),
    (
        r#"{"version":3,"notes":{"site":"Elm","phaseWalk.2":""}}"#,
        "plan: rule K1",
    ),
    (SHORT_YELLOW, "plan: rule K8"),
];

#[test]
fn faults_are_printed(rt: HostRuntime) {
    assert!(rt; are_answered(rt.alloc(), &TEXTS) && is_answered(rt.alloc(), QUAD, "read"));
}

/// One phase, which is in ring 2, in a text of each version.
const ONE_PHASE: [&str; 3] = [
    r#"{"version":1,"phaseEnabled":{"2":1},"phaseRing":{"2":2},"phaseSide":{"2":1},"phaseYellowChange":{"2":30},"sequenceData":{"9":2}}"#,
    r#"{"version":2,"phaseEnabled":{"2":1},"phaseRing":{"2":2},"phaseSide":{"2":1},"phaseYellowChange":{"2":30},"sequenceData":{"17":2}}"#,
    r#"{"version":3,"phaseEnabled":{"2":1},"phaseRing":{"2":2},"phaseSide":{"2":1},"phaseYellowChange":{"2":30},"sequenceData":{"17":2}}"#,
];

/// Whether both texts are read, as one plan.
fn are_one_plan(alloc: Global, text: &str, other: &str) -> bool {
    match (
        read_plan(alloc, text.as_bytes()),
        read_plan(alloc, other.as_bytes()),
    ) {
        (Ok(one), Ok(two)) => one.plan().has_same_cells(two.plan(), 0, PLAN_CELLS),
        _ => false,
    }
}

#[test]
fn versions_give_one_plan(rt: HostRuntime) {
    let [one, two, three] = ONE_PHASE;
    assert!(rt; are_one_plan(rt.alloc(), one, two) && are_one_plan(rt.alloc(), two, three));
}

/// Members of a text, each with what reading answers for it.
const MEMBERS: [(&str, &str); 15] = [
    (r#""Walk":{}"#, "plan: Walk: no such object"),
    (
        r#""phaseWalk":5,"W\u0041\"":5"#,
        "plan: WA\": no such object",
    ),
    (r#""overlapType":{}"#, "plan: overlapType: no such object"),
    (r#""phaseWalk":5"#, "plan: phaseWalk: not a table"),
    (
        r#""phaseWalk":{"02":1}"#,
        "plan: phaseWalk.02: no such object",
    ),
    (
        r#""phaseWalk":{"+2":1}"#,
        "plan: phaseWalk.+2: no such object",
    ),
    (
        r#""phaseWalk":{"9":1}"#,
        "plan: phaseWalk.9: no such object",
    ),
    (
        r#""phaseWalk":{"2":-1}"#,
        "plan: phaseWalk.2: not a whole number",
    ),
    (
        r#""phaseWalk":{"2":30.0}"#,
        "plan: phaseWalk.2: not a whole number",
    ),
    (
        r#""phaseWalk":{"2":4294967296}"#,
        "plan: phaseWalk.2: not a whole number",
    ),
    (
        r#""phaseWalk":{"2":4294967295}"#,
        "plan: phaseWalk.2: out of range",
    ),
    (
        r#""phaseWalk":{"2":256}"#,
        "plan: phaseWalk.2: out of range",
    ),
    (
        r#""phaseWalk":{"2":256,"10":-1}"#,
        "plan: phaseWalk.10: no such object",
    ),
    (
        r#""phaseWalk":{"2":256},"phaseSide":{"2":3}"#,
        "plan: phaseSide.2: out of range",
    ),
    (
        r#""phaseWalk":{"2":256},"phaseWalk":{"2":5}"#,
        "plan: rule K1",
    ),
];

#[test]
fn faults_of_members_are_printed(rt: HostRuntime) {
    assert!(rt; members_are_answered(rt.alloc(), &MEMBERS));
}

#[test]
fn plan_two_is_read(rt: HostRuntime) {
    let read = read_plan(rt.alloc(), TWO.as_bytes()).expect(&rt, "a plan");
    assert!(rt; *read.plan() == Plan::two());
}

#[test]
fn a_text_of_the_limit_is_read(rt: HostRuntime) {
    assert!(rt; padded_is_answered(rt.alloc(), TWO, LIMIT, "read"));
    assert!(rt; padded_is_answered(rt.alloc(), TWO, LIMIT + 1, "plan: too large"));
}

/// The fault of a text of the greatest length is reported as that of a short one.
#[test]
fn a_text_of_the_limit_is_judged(rt: HostRuntime) {
    let wanted = [
        ("", "plan: not JSON"),
        ("what", "plan: not JSON"),
        ("[]", "plan: not a table"),
        ("{}", "plan: version"),
        (r#"{"version":1}"#, "plan: rule K1"),
        (
            r#"{"version":1,"phaseWalk":{"2":256}}"#,
            "plan: phaseWalk.2: out of range",
        ),
        (SHORT_YELLOW, "plan: rule K8"),
    ];
    assert!(rt; all_padded_are_answered(rt.alloc(), &wanted));
}

/// Whether this is what reading answers for a text of so many pieces between a start and an end.
fn filled_is_answered(alloc: Global, parts: (&str, &str, &str), times: usize, line: &str) -> bool {
    match filled(alloc, parts, times) {
        Ok(text) => is_answered(alloc, text.as_str(), line),
        Err(_) => false,
    }
}

/// A text of so many pieces between a start and an end.
fn filled(alloc: Global, parts: (&str, &str, &str), times: usize) -> Result<String, AllocError> {
    let (start, piece, end) = parts;
    let mut text = String::from_str(alloc, start)?;
    for _ in 0..times {
        text.push_str(piece)?;
    }
    text.push_str(end)?;
    Ok(text)
}

/// A tree of 67,108,864 bytes, as they are counted, is made, and none of a value more: 900 bytes for a brace, 176 for a
/// bracket, 128 for a colon, 32 for a comma and 16 for a quote.
#[test]
fn a_tree_of_the_limit_is_made(rt: HostRuntime) {
    let start = r#"{"a":[{},{},{},"#;
    let most = (start, "[],", "0,0,0,0,0,0,0,0,0,0]}");
    let more = (start, "[],", "0,0,0,0,0,0,0,0,0,0,0]}");
    assert!(rt; filled_is_answered(rt.alloc(), most, 322_618, "plan: version"));
    assert!(rt; filled_is_answered(rt.alloc(), more, 322_618, "memory"));
}

/// A text of 256 KiB is read whatever is in it. In a longer one bytes within a string count as well.
#[test]
fn a_short_text_is_read_whatever_is_in_it(rt: HostRuntime) {
    let parts = (r#"{"a":""#, "{", r#""}"#);
    assert!(rt; filled_is_answered(rt.alloc(), parts, 262_136, "plan: version"));
    assert!(rt; filled_is_answered(rt.alloc(), parts, 262_137, "memory"));
}

/// A plan whose table comes again and again is read.
#[test]
fn one_table_again_and_again_is_read(rt: HostRuntime) {
    let parts = ("{", r#""phaseWalk":{"2":4},"#, r#""version":1}"#);
    assert!(rt; filled_is_answered(rt.alloc(), parts, 52_000, "plan: rule K1"));
}

#[test]
fn bytes_that_are_no_text_are_not_json(rt: HostRuntime) {
    let text = [b'"', 255, b'"'];
    assert!(rt; matches!(read_plan(rt.alloc(), &text), Err(PlanError::NotJson)));
}

/// Each fault with the line that it is printed as.
fn faults_with_lines(alloc: Global) -> Result<[(PlanError, &'static str); 12], AllocError> {
    let object = Object::PhaseWalk;
    let name = String::from_str(alloc, "Walk")?;
    let unknown = String::from_str(alloc, "17")?;
    let fractional = String::from_str(alloc, "2")?;
    let great = String::from_str(alloc, "16")?;
    Ok([
        (PlanError::Memory, "memory"),
        (PlanError::TooLarge, "plan: too large"),
        (PlanError::NotJson, "plan: not JSON"),
        (PlanError::NotATable, "plan: not a table"),
        (PlanError::Version, "plan: version"),
        (
            PlanError::NoSuchObject { name },
            "plan: Walk: no such object",
        ),
        (
            PlanError::ObjectNotATable { object },
            "plan: phaseWalk: not a table",
        ),
        (
            PlanError::NoSuchIndex {
                object,
                index: unknown,
            },
            "plan: phaseWalk.17: no such object",
        ),
        (
            PlanError::NotAWholeNumber {
                object,
                index: fractional,
            },
            "plan: phaseWalk.2: not a whole number",
        ),
        (
            PlanError::OutOfRange {
                object,
                index: great,
            },
            "plan: phaseWalk.16: out of range",
        ),
        (PlanError::NotesNotATable, "plan: notes: not a table"),
        (PlanError::Rule(Rule::K8), "plan: rule K8"),
    ])
}

/// Whether the fault is printed as this line.
fn is_printed(alloc: Global, fault: &PlanError, line: &str) -> bool {
    match format!(in alloc; "{fault}") {
        Ok(given) => given.as_str() == line,
        Err(_) => false,
    }
}

#[test]
fn each_fault_is_printed_as_its_line(rt: HostRuntime) {
    let faults = faults_with_lines(rt.alloc()).expect(&rt, "memory");
    for (fault, line) in &faults {
        assert!(rt; is_printed(rt.alloc(), fault, line));
    }
}
