//! What a second line says of a text that is refused: where it stops being JSON, or what it looks like.
ghost use Rattle.std.specs.Prelude.{◌≡◌, ◌≤◌, length};
ghost use Rattle.tsb_program.specs.Clues.{begins_as_log, begins_as_plan, clue_of_log, has_mark, large_clue, log_clue, log_clue_text, place_clue, plan_clue, text_clue};

use tsb_log_text::LogError;
use tsb_plan_notes::{JsonPlace, json_place};
use tsb_plan_text::PlanError;

/// What a second line says of the text of a plan that is refused.
#[derive(Clone, Copy)]
pub enum PlanClue {
    /// Where it stops being JSON.
    Place(JsonPlace),
    /// It begins with a byte order mark.
    Marked,
    /// It begins as an input log does.
    InputLog,
}

/// What a second line says of the text of an input log that is refused.
#[derive(Clone, Copy, Debug)]
pub enum LogClue {
    /// It begins with a byte order mark.
    Marked,
    /// It begins as the text of a plan does.
    Plan,
}

/// What a second line says of the text of a plan with this fault: nothing where the fault says it all.
pub(crate) fn plan_clue(fault: &PlanError, text: &[u8]) -> Option<PlanClue>
    ensures { result ≡ plan_clue fault.now text.now }
{
    match fault {
        PlanError::NotJson => text_clue(text),
        PlanError::TooLarge => large_clue(text),
        _ => None,
    }
}

/// What a text that is no JSON looks like, or where it stops being JSON.
fn text_clue(text: &[u8]) -> Option<PlanClue>
    ensures { result ≡ text_clue text.now }
{
    if has_mark(text) {
        Some(PlanClue::Marked)
    } else if begins_as_log(text) {
        Some(PlanClue::InputLog)
    } else {
        place_clue(json_place(text))
    }
}

/// What a text that is too large for a plan looks like.
fn large_clue(text: &[u8]) -> Option<PlanClue>
    ensures { result ≡ large_clue text.now }
{
    if begins_as_log(text) {
        Some(PlanClue::InputLog)
    } else {
        None
    }
}

/// The place at which a text stops being JSON, where there is one.
fn place_clue(place: Option<JsonPlace>) -> Option<PlanClue>
    ensures { result ≡ place_clue place }
{
    Some(PlanClue::Place(place?))
}

/// What a second line says of the text of an input log with this fault: nothing where the fault says it all.
pub(crate) fn log_clue(fault: &LogError, text: &[u8]) -> Option<LogClue>
    ensures { result ≡ log_clue fault.now text.now }
{
    match fault {
        LogError::TooLarge | LogError::Malformed(_) => clue_of_log(text),
        _ => None,
    }
}

/// What a text that is no input log looks like.
fn clue_of_log(text: &[u8]) -> Option<LogClue>
    ensures { result ≡ clue_of_log text.now }
{
    if has_mark(text) {
        Some(LogClue::Marked)
    } else if begins_as_plan(text) {
        Some(LogClue::Plan)
    } else {
        None
    }
}

/// Whether a text begins with the byte order mark of UTF-8.
fn has_mark(text: &[u8]) -> bool
    ensures { result ≡ has_mark text.now }
{
    let [first, second, third, ..] = text else {
        return false;
    };
    *first == 0xEF && *second == 0xBB && *third == 0xBF
}

/// Whether a text begins as that of a plan does: with a brace.
fn begins_as_plan(text: &[u8]) -> bool
    ensures { result ≡ begins_as_plan text.now }
{
    let [first, ..] = text else {
        return false;
    };
    *first == b'{'
}

/// Whether a text begins as an input log does: with a comment, or with a digit of a tick, which a space ends.
fn begins_as_log(text: &[u8]) -> bool
    ensures { result ≡ begins_as_log text.now }
{
    let [first, rest @ ..] = text else {
        return false;
    };
    if *first == b'#' {
        return true;
    }
    let [_, _, _, _, _, _, mark, ..] = rest else {
        return false;
    };
    *first >= b'0' && *first <= b'9' && *mark == b' '
}

/// What a second line says of the text of an input log, without its end.
pub(crate) fn log_clue_text(clue: LogClue) -> &'static str
    ensures { result.now ≡ log_clue_text clue }
{
    match clue {
        LogClue::Marked => "log line 1: a byte order mark: save the text without it",
        LogClue::Plan => "log line 1: it looks like a plan",
    }
}
