//! The lines of answers, without their line feeds.

ghost use Rattle.std.specs.Prelude.{◌≡◌, ◌≤◌, length};
ghost use Rattle.tsb_text.specs.Answers.{busy_line, display_line, line_in, preempt_in_service, refused_line, taken_line, undone_line, verified_line, when_line};
ghost use Rattle.tsb_bench.specs.Held.{state_of};

use arrayvec::ArrayString;
use tsb_bench::{Bench, Cmd, Input, Kind};
use tsb_display_text::{LineMaker, LineText};
use tsb_lines::{ShortLine, seven_digits};
use tsb_objects::{Preempt, Refusal, Rule, Station};
use tsb_plan_text::rule_line;
use tsb_preempt::preempt_of;

/// The display line as text, without a line feed: the tick number in 7 digits; a letter for each of the 16 vehicle
/// heads, for each of the 16 pedestrian heads and for each of the 4 overlaps; the preempt in service; the local counter
/// of the pattern that runs. It has 53 bytes. It takes no memory.
pub fn line(bench: &Bench) -> ArrayString<64>
    ensures { result.bytes ≡ display_line (state_of bench.now) }
{
    tsb_display_text::line(
        bench.now(),
        &bench.display(),
        preempt_in_service(bench),
        bench.local(),
    )
}

/// The display line, without a line feed, or the wide one. Its letters are those of the line made before, where no head
/// has changed. It takes no memory.
pub fn line_text(lines: &mut LineMaker, is_wide: bool, bench: &Bench) -> LineText
    ensures line { result ≡ line_in is_wide (state_of bench.now) }
    ensures short { length result ≤ 70 }
{
    lines.make(
        is_wide,
        bench.now(),
        &bench.display(),
        preempt_in_service(bench),
        bench.local(),
    );
    lines.text()
}

/// Makes the display line, without a line feed, or the wide one, of the heads that the bench keeps while no cell changes.
/// The bench stays as it was. It takes no memory.
pub(crate) fn make_line(lines: &mut LineMaker, is_wide: bool, bench: &mut Bench)
    ensures line { lines.new ≡ line_in is_wide (state_of bench.old) }
    ensures short { length lines.new ≤ 70 }
    ensures same { bench.new ≡ bench.old }
{
    let shown = bench.shown();
    lines.make(
        is_wide,
        bench.now(),
        &shown,
        preempt_in_service(bench),
        bench.local(),
    )
}

/// The preempt in service, where one is.
fn preempt_in_service(bench: &Bench) -> Option<Preempt>
    ensures { result ≡ preempt_in_service (state_of bench.now) }
{
    preempt_of(bench.stage())
}

/// The line that says that an input of this kind was taken back.
pub(crate) fn undone_line(kind: Kind) -> &'static [u8]
    ensures line { result.now ≡ undone_line kind }
    ensures short { length result.now ≤ 63 }
{
    match kind {
        Kind::Tick => b"undone tick",
        Kind::Pattern => b"undone pattern",
        Kind::Switch => b"undone switch",
        Kind::Fault => b"undone fault",
        Kind::Reset => b"undone reset",
        Kind::Begin => b"undone begin",
        Kind::Set => b"undone set",
        Kind::Verify => b"undone verify",
        Kind::Commit => b"undone commit",
        Kind::Abort => b"undone abort",
        Kind::Clock => b"undone clock",
        Kind::Omit => b"undone omit",
    }
}

/// The line that says that the bench took this command, which left it as `bench`.
pub(crate) fn taken_line(command: &Cmd, bench: &Bench) -> &'static [u8]
    ensures line { result.now ≡ taken_line command.now (state_of bench.now) }
    ensures short { length result.now ≤ 63 }
{
    match command {
        Cmd::Apply(Input::Verify(_)) => verified_line(bench.desk().rule()),
        _ => b"ok",
    }
}

/// The line that says what a check at the desk found.
fn verified_line(found: Option<Rule>) -> &'static [u8]
    ensures line { result.now ≡ verified_line found }
    ensures short { length result.now ≤ 63 }
{
    match found {
        Some(rule) => rule_line(rule).as_bytes(),
        None => b"ok",
    }
}

/// The line that gives the tick number of the last change.
pub fn when_line(tick: Option<u32>) -> ShortLine<12>
    ensures line { result ≡ when_line tick }
    ensures short { length result ≤ 12 }
{
    let mut line = ShortLine::new();
    let Some(tick) = tick else {
        line.push(b"never");
        return line;
    };
    line.push(b"tick ");
    line.push(&seven_digits(tick));
    line
}

/// The line of a refusal, with its number, E1 to E12, and its name. It has at most 63 bytes.
pub fn refused_line(refusal: Refusal) -> &'static [u8]
    ensures line { result.now ≡ refused_line refusal }
    ensures short { length result.now ≤ 63 }
{
    match refusal {
        Refusal::Memory => b"refused E1 Memory",
        Refusal::NoSuchObject => b"refused E2 NoSuchObject",
        Refusal::OutOfRange => b"refused E3 OutOfRange",
        Refusal::Busy(station) => busy_line(station),
        Refusal::NotOwner => b"refused E5 NotOwner",
        Refusal::NotOpen => b"refused E6 NotOpen",
        Refusal::NotVerified => b"refused E7 NotVerified",
        Refusal::TooManyEdits => b"refused E8 TooManyEdits",
        Refusal::NoSuchPattern => b"refused E9 NoSuchPattern",
        Refusal::NoSuchPreempt => b"refused E10 NoSuchPreempt",
        Refusal::TickLimit => b"refused E11 TickLimit",
        Refusal::InService => b"refused E12 InService",
    }
}

/// The line that says that this station has the desk.
fn busy_line(station: Station) -> &'static [u8]
    ensures line { result.now ≡ busy_line station }
    ensures short { length result.now ≤ 63 }
{
    match station.number() {
        1 => b"refused E4 Busy 1",
        2 => b"refused E4 Busy 2",
        3 => b"refused E4 Busy 3",
        _ => b"refused E4 Busy 4",
    }
}
