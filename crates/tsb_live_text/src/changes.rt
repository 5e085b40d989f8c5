//! Ticks of which only the changes are told.
ghost use Rattle.std.specs.Prelude.{◌≡◌, ◌⊎◌, ◌≤◌, ◌++◌, List, Ok, OnOk, Some, false, length};
ghost use Rattle.tsb_bench.specs.Held.{state_of};
ghost use Rattle.tsb_dialog.specs.Said.{SaidUntilFault, with_feed};
ghost use Rattle.tsb_dialog.specs.Blame.{AfterCalls};
ghost use Rattle.tsb_live_text.specs.Changes.{Changes, TellsTick, owed, shows_same};
ghost use Rattle.tsb_log_text.specs.declared.log.LogRow.{LogRow};
ghost use Rattle.tsb_step.specs.declared.inputs.Input.{Input as InputValue};
ghost use Rattle.tsb_types.specs.declared.row.Row.{Row as RowValue};
ghost use Rattle.tsb_text.specs.declared.rows.Rows.TheVariants.{Held};
ghost use Rattle.tsb_text.specs.Rows.{rows_in};
ghost use Rattle.tsb_text.specs.Answers.{Setup, line_in, refused_line};
ghost use Rattle.tsb_text.specs.Obeyed.{Done, Stands, besides_of, news_in, tells_in};
ghost use Rattle.tsb_text.specs.Wanting.{IsWanting, WantsAfter, WantsFollower, tick_of};
ghost use Rattle.tsb_types.specs.declared.refusal.Refusal.TheVariants.{Memory};

use std::io::Write;
use tsb_dialog::{Pending, Watched, WriteError};
use tsb_display_text::{LineMaker, LineText, WIDTH};
use tsb_objects::Refusal;
use tsb_text::{Course, follow, line_text, say_refusal};

/// Where the fields of a display line begin that tell heads and the preempt.
const SHOWN: usize = 8;

/// Where those fields end.
const SHOWN_END: usize = 48;

/// So many ticks with the row that is held, up to one that is refused, and why it was. It says what each tick tells, each
/// display line that shows another head or preempt than the line before, and the last; and a refusal, behind `echo`. A
/// tick is refused with E1 only where there is no room for it.
pub(crate) fn changes<W: Write>(
    course: &mut Course,
    lines: &mut LineMaker,
    ticks: u32,
    echo: &[u8],
    pending: &mut Pending,
    writer: &mut Watched<W>,
) -> Result<Option<Refusal>, WriteError>
    ensures done { (given : Setup) (log : List LogRow) (row : RowValue) (inputs : List InputValue) → Stands given log course.old inputs → log ≡ rows_in (Held row)
        → Done result given log course.new (Changes given (besides_of course.old echo.now) row inputs (line_in course.old.is_wide (state_of course.old.bench)) false ticks) (W.contents writer.old.device) (W.contents writer.new.device) pending.old pending.new }
    ensures wanting { result ≡ Ok (Some Memory) → IsWanting course.new (tick_of course.new) ⊎ WantsFollower course.new }
    ensures mode { course.new.mode ≡ course.old.mode }
    ensures blame { writer.old.failed ≡ false → AfterCalls result writer.new.failed }
{
    let mut before = line_text(lines, course.is_wide(), course.bench());
    let mut is_owed = false;
    for _i in 0..ticks {
        if let Err(refusal) = course.tick() {
            return say_stop(&before, is_owed, &refusal, echo, pending, writer);
        }
        let now = line_text(lines, course.is_wide(), course.bench());
        is_owed = shows_same(&now, &before);
        match say_tick(course, &now, !is_owed, pending, writer)? {
            Some(refusal) => return say_stop(&now, is_owed, &refusal, echo, pending, writer),
            None => before = now,
        }
    }
    say_owed(&before, is_owed, pending, writer)?;
    Ok(None)
}

/// Says the events of a tick, takes what follows it and says the events of that, and says the display line of the tick, if
/// it is owed. It answers why what follows was refused, if it was.
fn say_tick<W: Write>(
    course: &mut Course,
    line: &LineText,
    is_owed: bool,
    pending: &mut Pending,
    writer: &mut Watched<W>,
) -> Result<Option<Refusal>, WriteError>
    requires { length line.now ≤ 70 }
    ensures done { (given : Setup) (log : List LogRow) (inputs : List InputValue) → Stands given log course.old inputs
        → Done result given log course.new (TellsTick given (tells_in course.old.mode) inputs course.old.next (news_in course.old) (owed is_owed line.now)) (W.contents writer.old.device) (W.contents writer.new.device) pending.old pending.new }
    ensures wanting { result ≡ Ok (Some Memory) → WantsAfter course.new course.old.next }
    ensures mode { course.new.mode ≡ course.old.mode }
    ensures blame { writer.old.failed ≡ false → AfterCalls result writer.new.failed }
{
    course.say_news(pending, writer)?;
    let refusal = follow(course, pending, writer)?;
    say_owed(line, is_owed, pending, writer)?;
    Ok(refusal)
}

/// Says the display line before a tick that was refused, if it is owed, and the refusal, behind `echo`; and tells why it
/// was refused.
fn say_stop<W: Write>(
    line: &LineText,
    is_owed: bool,
    refusal: &Refusal,
    echo: &[u8],
    pending: &mut Pending,
    writer: &mut Watched<W>,
) -> Result<Option<Refusal>, WriteError>
    requires { length line.now ≤ 70 }
    ensures said { SaidUntilFault result (W.contents writer.old.device) (W.contents writer.new.device) pending.old pending.new (owed is_owed line.now ++ (echo.now ++ with_feed (refused_line refusal.now))) }
    ensures told { OnOk result (result ≡ Ok (Some refusal.now)) }
    ensures blame { writer.old.failed ≡ false → AfterCalls result writer.new.failed }
{
    say_owed(line, is_owed, pending, writer)?;
    say_refusal(refusal, echo, pending, writer)
}

/// Says a display line, if it is owed.
fn say_owed<W: Write>(
    line: &LineText,
    is_owed: bool,
    pending: &mut Pending,
    writer: &mut Watched<W>,
) -> Result<(), WriteError>
    requires { length line.now ≤ 70 }
    ensures said { SaidUntilFault result (W.contents writer.old.device) (W.contents writer.new.device) pending.old pending.new (owed is_owed line.now) }
    ensures blame { writer.old.failed ≡ false → AfterCalls result writer.new.failed }
{
    if is_owed {
        return pending.say(writer, line.as_bytes());
    }
    Ok(())
}

/// Whether two display lines show the same heads and the same preempt.
fn shows_same(line: &LineText, other: &LineText) -> bool
    requires line { 53 ≤ length line.now }
    requires other { 53 ≤ length other.now }
    ensures { result ≡ shows_same line.now other.now }
{
    let (line, other) = (line.as_bytes(), other.as_bytes());
    line[SHOWN..SHOWN_END] == other[SHOWN..SHOWN_END] && line[WIDTH..] == other[WIDTH..]
}
