ghost use Rattle.std.specs.Prelude.{◌≡◌};
ghost use Rattle.tsb_history.specs.Bytes.{code_of, kind_of};

/// What an input was. In the bytes of a history a kind is one number, from 0 for `Tick` to 11 for
/// `Omit`, in this order.
#[derive(Clone, Copy, Debug, PartialEq, Eq)]
pub enum Kind {
    /// A tick of the clock.
    Tick,
    /// A choice of a pattern.
    Pattern,
    /// A switch that was turned.
    Switch,
    /// A fault that was put in or taken out.
    Fault,
    /// A reset of the controller.
    Reset,
    /// An edit of the plan was begun.
    Begin,
    /// A value of the edited plan was set.
    Set,
    /// The edited plan was verified.
    Verify,
    /// The edited plan was put into force.
    Commit,
    /// The edit was given up.
    Abort,
    /// A clock that was set.
    Clock,
    /// Arrows that were omitted, or let flash again.
    Omit,
}

impl Kind {
    pub(crate) fn code(self) -> u8
        ensures { result ≡ code_of self }
    {
        match self {
            Kind::Tick => 0,
            Kind::Pattern => 1,
            Kind::Switch => 2,
            Kind::Fault => 3,
            Kind::Reset => 4,
            Kind::Begin => 5,
            Kind::Set => 6,
            Kind::Verify => 7,
            Kind::Commit => 8,
            Kind::Abort => 9,
            Kind::Clock => 10,
            Kind::Omit => 11,
        }
    }

    pub(crate) fn of_code(code: u8) -> Kind
        ensures { result ≡ kind_of code }
    {
        match code {
            0 => Kind::Tick,
            1 => Kind::Pattern,
            2 => Kind::Switch,
            3 => Kind::Fault,
            4 => Kind::Reset,
            5 => Kind::Begin,
            6 => Kind::Set,
            7 => Kind::Verify,
            8 => Kind::Commit,
            9 => Kind::Abort,
            10 => Kind::Clock,
            _ => Kind::Omit,
        }
    }
}
