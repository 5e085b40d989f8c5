//! The line of a finding, or of a breach.
ghost use Rattle.std.specs.Prelude.{◌≡◌, ◌≤◌, [], ◌∷◌, ◌++◌, codes, decimal, length};
ghost use Rattle.tsb_lines.specs.ShortLines.{Adds};
ghost use Rattle.tsb_plan.specs.Names.{name_of};
ghost use Rattle.tsb_plan.specs.PlanOf.{plan_of};
ghost use Rattle.tsb_plan.specs.Versions.{is_split};
ghost use Rattle.tsb_review_text.specs.Bytes.{ended};
ghost use Rattle.tsb_review_text.specs.Lines.{seconds, fraction, part, id_name, table_name, table_of, value_name, also, line_of, breach_line};

use crate::breach_template::breach_template;
use crate::template::wording;
use tsb_breaches::Breach;
use tsb_lines::ShortLine;
use tsb_plan::{Object, ObjectId, Plan};
use tsb_review::{Finding, Numbers, is_also_in, numbers_of, unused_value};
use tsb_types::Pattern;

/// The most bytes that a line can have, with its line feed.
pub const LONGEST: usize = 320;

/// How many phases a split table has.
const PHASES: u32 = 16;

/// The bytes of a line.
pub type Line = ShortLine<LONGEST>;

/// The line of a finding, with its line feed. It takes no memory.
pub fn line_of(plan: &Plan, finding: &Finding) -> Line
    ensures { result ≡ line_of (plan_of plan.now) finding.now }
{
    let numbers = numbers_of(plan, finding);
    let mut line = Line::new();
    push_parts(&mut line, wording(plan, finding), &numbers, b"");
    push_value_name(&mut line, unused_value(plan, finding));
    push_patterns(&mut line, plan, finding, &Pattern::all());
    line
}

/// The line of a breach of a rule, with its line feed. It takes no memory.
pub fn breach_line(plan: &Plan, breach: &Breach) -> Line
    ensures { result ≡ breach_line (plan_of plan.now) breach.now }
{
    let numbers = tsb_breaches::numbers_of(plan, breach);
    let mut line = Line::new();
    push_parts(&mut line, breach_template(breach.fault), &numbers, b"\n");
    line
}

/// Adds a text, with numbers in place of their letters, and what ends it.
fn push_parts(line: &mut Line, text: &[u8], numbers: &Numbers, end: &[u8])
    ensures { Adds LONGEST line.old (ended (part numbers.now) end.now text.now) line.new }
{
    for byte in text {
        push_part(line, *byte, numbers);
    }
    line.push(end);
}

/// Adds the name of a value, where there is one; that of a split with its table.
fn push_value_name(line: &mut Line, id: Option<ObjectId>)
    ensures line { Adds LONGEST line.old (value_name id) line.new }
    ensures short { length (value_name id) ≤ 67 }
{
    match id {
        Some(id) => push_value(line, id),
        None => line.push(b""),
    }
}

/// Adds the name of a value, with its split table.
fn push_value(line: &mut Line, id: ObjectId)
    ensures line { Adds LONGEST line.old (id_name id ++ table_name id) line.new }
    ensures short { length (id_name id ++ table_name id) ≤ 67 }
{
    push_id(line, id);
    push_table_name(line, id);
}

/// Adds the split table of a value, where it is one of splits.
fn push_table_name(line: &mut Line, id: ObjectId)
    ensures line { Adds LONGEST line.old (table_name id) line.new }
    ensures short { length (table_name id) ≤ 26 }
{
    if is_split(id.object) {
        push_table(line, table_of(id.index));
    } else {
        line.push(b"");
    }
}

/// Adds a split table.
fn push_table(line: &mut Line, table: u32)
    ensures line { Adds LONGEST line.old (codes " of split table " ++ decimal table) line.new }
    ensures short { length (codes " of split table " ++ decimal table) ≤ 26 }
{
    line.push(b" of split table ");
    line.push_number(table);
}

/// The split table that an index is of.
fn table_of(index: u32) -> u32
    ensures { result ≡ table_of index }
{
    index.saturating_sub(1) / PHASES + 1
}

/// Whether the object says what a phase has in a split table.
fn is_split(object: Object) -> bool
    ensures { result ≡ is_split object }
{
    matches!(
        object,
        Object::SplitTime | Object::SplitMode | Object::SplitCoordPhase
    )
}

/// Adds a space, an object and an index.
fn push_id(line: &mut Line, id: ObjectId)
    ensures line { Adds LONGEST line.old (id_name id) line.new }
    ensures short { length (id_name id) ≤ 41 }
{
    line.push(b" ");
    push_name(line, id.object);
    push_point(line, id.index);
}

/// Adds the name of an object.
fn push_name(line: &mut Line, object: Object)
    ensures { Adds LONGEST line.old (name_of object) line.new }
{
    line.push(object.name().as_bytes());
}

/// Adds those of the patterns of which the finding is also told, and a line feed.
fn push_patterns(line: &mut Line, plan: &Plan, finding: &Finding, patterns: &[Pattern])
    ensures { Adds LONGEST line.old (ended (also (plan_of plan.now) finding.now) (10 ∷ []) patterns.now) line.new }
{
    for pattern in patterns {
        push_pattern(line, plan, finding, *pattern);
    }
    line.push(b"\n");
}

/// Adds a pattern, where the finding is also told of it.
fn push_pattern(line: &mut Line, plan: &Plan, finding: &Finding, pattern: Pattern)
    ensures { Adds LONGEST line.old (also (plan_of plan.now) finding.now pattern) line.new }
{
    if is_also_in(plan, finding, pattern) {
        push_listed(line, u32::from(pattern.number()));
    } else {
        line.push(b"");
    }
}

/// Adds a number behind others.
fn push_listed(line: &mut Line, number: u32)
    ensures { Adds LONGEST line.old (44 ∷ 32 ∷ decimal number) line.new }
{
    line.push(b", ");
    line.push_number(number);
}

/// Adds what a byte of a text stands for.
fn push_part(line: &mut Line, byte: u8, numbers: &Numbers)
    ensures { Adds LONGEST line.old (part numbers.now byte) line.new }
{
    match byte {
        b'P' => line.push_number(numbers.a),
        b'Q' => line.push_number(numbers.b),
        b'R' => line.push_number(numbers.c),
        b'S' => line.push_number(numbers.d),
        b'T' => line.push_number(numbers.e),
        b'U' => push_seconds(line, numbers.e),
        b'W' => push_seconds(line, numbers.a),
        b'X' => push_seconds(line, numbers.b),
        b'Y' => push_seconds(line, numbers.c),
        b'Z' => push_seconds(line, numbers.d),
        _ => line.push(&[byte]),
    }
}

/// Adds a time in tenths of a second as seconds, with a decimal where it is needed.
fn push_seconds(line: &mut Line, tenths: u32)
    ensures { Adds LONGEST line.old (seconds tenths) line.new }
{
    line.push_number(tenths / 10);
    push_fraction(line, tenths % 10);
}

/// Adds the tenths of a second that stand behind whole seconds, none for 0.
fn push_fraction(line: &mut Line, tenths: u32)
    ensures { Adds LONGEST line.old (fraction tenths) line.new }
{
    if tenths == 0 {
        line.push(b"");
    } else {
        push_point(line, tenths);
    }
}

/// Adds a point and a number: tenths of a second, or an index.
fn push_point(line: &mut Line, number: u32)
    ensures line { Adds LONGEST line.old (46 ∷ decimal number) line.new }
    ensures short { length (decimal number) ≤ 10 }
{
    line.push(b".");
    line.push_number(number);
}
