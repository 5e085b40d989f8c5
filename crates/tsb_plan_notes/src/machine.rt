//! A text of JSON, byte after byte.
ghost use Rattle.std.specs.Prelude.{◌≡◌, ◌≤◌, [], length, IfSome};
ghost use Rattle.tsb_plan_notes.specs.Places.{Takes, behind, ended, first_in, opened, start, stop, stop_here, top, unless_end, wanted};

use crate::next::{Bracket, JsonNext, Move};
use crate::step::{after, step};
use arrayvec::ArrayVec;

/// How many objects and arrays stand in one another at most.
pub const DEPTH: usize = 127;

/// A text between two bytes: what may come, and which brackets are open, the last of them behind the others.
#[derive(Drop)]
struct Machine {
    next: JsonNext,
    brackets: ArrayVec<Bracket, DEPTH>,
}

/// Where a text stops being JSON.
#[derive(Clone, Copy)]
pub(crate) struct JsonStop {
    /// How many bytes come before.
    pub(crate) at: usize,
    /// What has to come there.
    pub(crate) next: JsonNext,
}

impl Machine {
    /// Before the first byte.
    fn new() -> Machine
        ensures { result ≡ start }
    {
        Machine {
            next: JsonNext::Value,
            brackets: ArrayVec::new(),
        }
    }

    /// The bracket that was opened last and is not closed.
    fn top(&self) -> Option<Bracket>
        ensures { result ≡ top self.now.brackets.items }
    {
        self.brackets.last().copied()
    }

    /// Takes a byte, and says whether it may stand there. One that may not changes nothing.
    fn take(&mut self, byte: u8) -> bool
        ensures { Takes result (behind self.old byte) self.old self.new }
    {
        match step(self.next, self.top(), byte) {
            Move::To(next) => {
                self.next = next;
                true
            }
            Move::Open(bracket) => self.open_bracket(bracket),
            Move::Close => {
                self.brackets.pop();
                self.end_value();
                true
            }
            Move::Ended => {
                self.end_value();
                true
            }
            Move::Wrong => false,
        }
    }

    /// Opens a bracket, and says whether so many may be open. One too many changes nothing.
    fn open_bracket(&mut self, bracket: Bracket) -> bool
        ensures { Takes result (opened self.old bracket) self.old self.new }
    {
        if self.brackets.len() == DEPTH {
            return false;
        }
        self.brackets.push(bracket);
        self.next = first_in(bracket);
        true
    }

    /// Ends a value.
    fn end_value(&mut self)
        ensures { self.new ≡ ended self.old }
    {
        self.next = after(self.top());
    }

    /// Where the text stops, behind so many bytes.
    fn stop_here(&self, at: usize) -> JsonStop
        ensures { result ≡ stop_here self.now at }
    {
        JsonStop {
            at,
            next: wanted(self.next, self.top()),
        }
    }
}

/// Where a text stops being JSON: before the first byte that can't stand where it stands, or at its end.
pub(crate) fn stop_of(text: &[u8]) -> Option<JsonStop>
    ensures place { result ≡ stop start 0 text.now }
    ensures within { IfSome result (λ found. found.at ≤ length text.now) }
{
    let mut machine = Machine::new();
    let mut at = 0;
    while at < text.len() {
        if !machine.take(text[at]) {
            return Some(machine.stop_here(at));
        }
        at += 1;
    }
    unless_end(machine.stop_here(at))
}

/// What has to come, where nothing of this has to: behind a number that may be whole, what follows a value.
fn wanted(next: JsonNext, top: Option<Bracket>) -> JsonNext
    ensures { result ≡ wanted next top }
{
    match next {
        JsonNext::Zero | JsonNext::Whole | JsonNext::Fraction | JsonNext::Power => after(top),
        _ => next,
    }
}

/// What may come behind an opening bracket.
fn first_in(bracket: Bracket) -> JsonNext
    ensures { result ≡ first_in bracket }
{
    match bracket {
        Bracket::Object => JsonNext::FirstName,
        Bracket::Array => JsonNext::FirstItem,
    }
}

/// The end of a text, where something has to come.
fn unless_end(stop: JsonStop) -> Option<JsonStop>
    ensures { result ≡ unless_end stop }
{
    match stop.next {
        JsonNext::End => None,
        _ => Some(stop),
    }
}
