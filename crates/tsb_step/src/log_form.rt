//! What an event log has noted before an input.
ghost use Rattle.std.specs.Prelude.{◌≡◌};
ghost use Rattle.tsb_step.specs.Events.{usual, usual_after};

use tsb_objects::Row;

/// The form of an event log: what it has beside what each has, or in place of it. With all off it has the events of
/// calls and inputs as the enumerations describe them, except that vehicle detectors go on and off as their inputs do.
#[derive(Clone, Copy, Default, PartialEq, Eq)]
pub struct LogForm {
    /// The calls of phases on recall come and go in it too.
    pub recalls: bool,
    /// A vehicle detector goes on and off as its output does, after delay and extension, and not as its input does.
    pub outputs: bool,
}

impl LogForm {
    /// The usual form: all off.
    pub fn usual() -> LogForm
        ensures { result ≡ usual }
    {
        LogForm {
            recalls: false,
            outputs: false,
        }
    }
}

/// What an event log has noted before an input.
#[derive(Clone, Copy)]
pub struct Noted {
    /// Its form.
    pub form: LogForm,
    /// The inputs that were on in the newest tick; all off before the first.
    pub row: Row,
}

impl Noted {
    /// In the usual form, where these inputs were on in the newest tick.
    pub fn usual_after(row: Row) -> Noted
        ensures { result ≡ usual_after row }
    {
        Noted {
            form: LogForm::usual(),
            row,
        }
    }
}
