//! Lists of things that came at a tick, the oldest first, which can be cut back to a tick.
ghost use Rattle.std.specs.Prelude.{◌≡◌};
ghost use Rattle.tsb_text.specs.Later.{without_later};

use tsb_log_text::LogRow;
use tsb_types::Event;

/// What came at a tick.
pub trait Timed {
    ghost use Rattle.std.specs.Prelude.{ℕ};

    /// The number of the tick.
    ghost at: { Self → ℕ };

    /// The number of the tick at which it came.
    fn tick(&self) -> u32
        ensures { result ≡ at self.now };
}

impl Timed for LogRow {
    ghost use Rattle.tsb_text.specs.Later.{row_tick};

    ghost at = { row_tick };

    fn tick(&self) -> u32 {
        self.tick
    }
}

impl Timed for Event {
    ghost use Rattle.tsb_text.specs.Later.{event_tick};

    ghost at = { event_tick };

    fn tick(&self) -> u32 {
        self.tick
    }
}

/// Drops the things at the end that came later than a tick.
pub(crate) fn drop_later<T: Timed + Copy>(things: &mut Vec<T>, tick: u32)
    ensures { things.new.items ≡ without_later T.at tick things.old.items }
{
    while let Some(last) = things.last() {
        if last.tick() <= tick {
            return;
        }
        let _ = things.pop();
    }
}
