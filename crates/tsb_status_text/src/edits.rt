//! The line of the desk.
ghost use Rattle.std.specs.Prelude.{◌≡◌, true};
ghost use Rattle.tsb_lines.specs.ShortLines.{Adds};
ghost use Rattle.tsb_status_text.specs.declared.edit_lines.TheConstants.{LONGEST_EDITS};
ghost use Rattle.tsb_status_text.specs.Bytes.{comma, edit_bytes, list_bytes, owner_bytes, rule_bytes};
ghost use Rattle.tsb_status_text.specs.EditsLine.{edits_text, state_name};
ghost use Rattle.tsb_plan_text.specs.RuleLines.{rule_name};
ghost use Rattle.tsb_transact.specs.Cells.{desk_in};
ghost use Rattle.tsb_transact.specs.Layer.{cells_of};

use crate::edit_lines::EditsLine;
use tsb_objects::{Rule, Station};
use tsb_plan_text::rule_line;
use tsb_transact::{Desk, DeskState, Edit};

/// The word that `rule_line` has before the name of a rule.
const RULE_WORD: usize = "rule ".len();

/// The desk as one JSON object, in ASCII, without spaces and without a line feed.
///
/// `owner` is the number of the station whose transaction is open, `state` how far that is, `rule` the rule that the
/// last check found broken, while it is kept; what is none is null. `edits` are in the order in which their objects
/// were set first, each with the words of a command `set`: object, index, value. The line has at most `LONGEST_EDITS` bytes
/// and takes no memory.
pub fn edits_line(desk: &Desk) -> EditsLine
    ensures { result ≡ edits_text (desk_in (cells_of desk.now)) }
{
    let mut line = EditsLine::new();
    line.push(b"{\"owner\":");
    push_owner(&mut line, desk.owner());
    line.push(b",\"state\":\"");
    line.push(state_name(desk.state()));
    line.push(b"\",\"rule\":");
    push_rule(&mut line, desk.rule());
    line.push(b",\"edits\":[");
    push_edits(&mut line, desk.edits().as_slice());
    line.push(b"}");
    line
}

/// Adds the number of a station to a line, or null where there is none.
fn push_owner(line: &mut EditsLine, owner: Option<Station>)
    ensures { Adds LONGEST_EDITS line.old (owner_bytes owner) line.new }
{
    match owner {
        None => line.push(b"null"),
        Some(station) => line.push_number(u32::from(station.number())),
    }
}

/// How far a transaction is.
fn state_name(state: DeskState) -> &'static [u8]
    ensures { result.now ≡ state_name state }
{
    match state {
        DeskState::Normal => b"normal",
        DeskState::Transaction => b"transaction",
        DeskState::Verify => b"verify",
        DeskState::Done => b"done",
    }
}

/// Adds the name of a rule to a line, or null where there is none.
fn push_rule(line: &mut EditsLine, rule: Option<Rule>)
    ensures { Adds LONGEST_EDITS line.old (rule_bytes rule) line.new }
{
    match rule {
        None => line.push(b"null"),
        Some(rule) => {
            line.push(b"\"");
            line.push(rule_name(rule));
            line.push(b"\"");
        }
    }
}

/// The letter K and the number of a rule.
fn rule_name(rule: Rule) -> &'static [u8]
    ensures { result.now ≡ rule_name rule }
{
    &rule_line(rule).as_bytes()[RULE_WORD..]
}

/// Adds edits to a line, with commas between them, and closes their list.
fn push_edits(line: &mut EditsLine, edits: &[Edit])
    ensures { Adds LONGEST_EDITS line.old (list_bytes true edits.now) line.new }
{
    let mut first = true;
    for edit in edits {
        separate(line, first);
        push_edit(line, *edit);
        first = false;
    }
    line.push(b"]");
}

/// Adds the comma that stands before each edit but the first.
fn separate(line: &mut EditsLine, first: bool)
    ensures { Adds LONGEST_EDITS line.old (comma first) line.new }
{
    if first {
        line.push(b"");
    } else {
        line.push(b",");
    }
}

/// Adds an edit to a line.
fn push_edit(line: &mut EditsLine, edit: Edit)
    ensures { Adds LONGEST_EDITS line.old (edit_bytes edit) line.new }
{
    line.push(b"{\"object\":\"");
    line.push(edit.id.object.name().as_bytes());
    line.push(b"\",\"index\":");
    line.push_number(edit.id.index);
    line.push(b",\"value\":");
    line.push_number(edit.value);
    line.push(b"}");
}
