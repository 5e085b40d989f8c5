//! The ticks that lead to a moment of the clock.
ghost use Rattle.std.specs.Prelude.{◌≡◌, ◌≤◌, ◌<◌, ◌+◌, ◌*◌, IfSome};
ghost use Rattle.tsb_types.specs.declared.clock_time.TheConstants.{DAY, LAST_DAY};
ghost use Rattle.tsb_types.specs.declared.limits.TheConstants.{TICKS};
ghost use Rattle.tsb_live_text.specs.GoTo.{command_to, moment_of, tick_of, tick_within};

use tsb_command_text::{Aim, Command};
use tsb_objects::Refusal;
use tsb_text::LineFault;
use tsb_types::DAY;
use tsb_types::limits::TICKS;

/// The first tick at or after the moment that is named, where tick number 0 is at moment `start` of the clock and tick
/// number `now` is in force. What asks for it is no command where no clock is set, and refused (E11) where the tick would
/// be greater than the last that there is.
pub(crate) fn tick_of(start: Option<u64>, now: u32, aim: Aim) -> Result<u32, LineFault>
    requires counted { IfSome start (λ m. m < (LAST_DAY + 1) * DAY) }
    requires in_time { now ≤ TICKS }
    ensures { result ≡ tick_of start now aim }
{
    match start {
        None => Err(LineFault::BadCommand),
        Some(start) => {
            let moment = moment_of(start + u64::from(now), aim);
            tick_within(moment.saturating_sub(start))
        }
    }
}

/// The moment that is named, where the clock has the moment `present`.
fn moment_of(present: u64, aim: Aim) -> u64
    requires { present ≤ (LAST_DAY + 1) * DAY + TICKS }
    ensures { result ≡ moment_of present aim }
{
    match aim {
        Aim::Time(time) => present / u64::from(DAY) * u64::from(DAY) + u64::from(time),
        Aim::Moment(moment) => moment.number(),
    }
}

/// A tick that there is.
fn tick_within(tick: u64) -> Result<u32, LineFault>
    ensures { result ≡ tick_within tick }
{
    if tick <= u64::from(TICKS) {
        Ok(tick as u32)
    } else {
        Err(LineFault::Refused(Refusal::TickLimit))
    }
}

/// The command that leads to a tick, where tick number `now` is in force: `seek T`, or `step N` on.
pub(crate) fn command_to(now: u32, tick: u32) -> Command
    ensures { result ≡ command_to now tick }
{
    if tick <= now {
        Command::Seek(tick)
    } else {
        Command::Step(tick - now)
    }
}
