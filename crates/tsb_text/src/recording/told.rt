//! The events of inputs, which can be taken back.
ghost use Rattle.std.specs.Prelude.{◌≡◌, ◌⊎◌, ◌<◌, OnErr, OnOk, length};
ghost use Rattle.tsb_text.specs.recording.Told.{DropsMark, gone_back, nothing_told, with_events, with_mark};
ghost use Rattle.tsb_text.specs.recording.Along.{Wants, with_input};

use crate::later::{Timed, drop_later};
use std::alloc::{AllocError, Global};
use std::marker::Model;
use tsb_step::Input;
use tsb_types::Event;

/// Where an input came that is no tick.
#[derive(Clone, Copy, Default)]
pub struct Mark {
    /// The number of the tick in force.
    pub tick: u32,
    /// How many events there were before it.
    pub events: usize,
}

impl Timed for Mark {
    ghost use Rattle.tsb_text.specs.recording.Told.{mark_tick};

    ghost at = { mark_tick };

    fn tick(&self) -> u32 {
        self.tick
    }
}

/// The events of the inputs that remain, the oldest first. A contract sees the events and the marks, one for each input
/// that is no tick. It also sees for how many more of them there is memory.
#[derive(Drop)]
pub struct Told {
    events: Vec<Event>,
    marks: Vec<Mark>,
}

impl Model for Told {
    ghost use Rattle.std.specs.Prelude.{◌-◌, vec_capacity, vec_len};
    ghost use Rattle.tsb_text.specs.recording.Told.{Stored};

    ghost Value = { Stored };

    ghost view = { λ a. record {
      told = record { events = a.events.items; marks = a.marks.items };
      event_room = vec_capacity a.events - vec_len a.events;
      mark_room = vec_capacity a.marks - vec_len a.marks;
    } };
}

impl Told {
    /// Nothing, which takes no memory.
    pub fn new(alloc: Global) -> Told
        ensures { result.told ≡ nothing_told }
    {
        Told {
            events: Vec::new(alloc),
            marks: Vec::new(alloc),
        }
    }

    /// All events, the oldest first.
    pub fn into_events(self) -> Vec<Event>
        ensures { result.items ≡ self.told.events }
    {
        let Told { events, marks, .. } = self;
        drop(marks);
        events
    }

    /// Adds the events of an input, where this tick was in force before it. The error is that memory ran out. It comes
    /// only where there is no room for them, and takes nothing away.
    pub fn add(&mut self, input: &Input, tick: u32, news: &[Event]) -> Result<(), AllocError>
        ensures ok { OnOk result (self.new.told ≡ with_input input.now tick news.now self.old.told) }
        ensures err { OnErr result (self.new.told ≡ self.old.told) }
        ensures wanting { OnErr result (Wants input.now news.now self.new) }
    {
        match input {
            Input::Tick(_) => self.add_tick(news),
            _ => self.add_input(tick, news),
        }
    }

    /// Adds the events of a tick. The error is that memory ran out, and leaves all as it was.
    fn add_tick(&mut self, news: &[Event]) -> Result<(), AllocError>
        ensures ok { OnOk result (self.new.told ≡ with_events news.now self.old.told) }
        ensures err { OnErr result (self.new.told ≡ self.old.told) }
        ensures wanting { OnErr result (self.new.event_room < length news.now) }
    {
        self.events.reserve(news.len())?;
        let _ = self.events.extend_from_slice(news);
        Ok(())
    }

    /// Adds the events of an input that is no tick, where this tick is in force. The error is that memory ran out, and
    /// leaves all as it was.
    fn add_input(&mut self, tick: u32, news: &[Event]) -> Result<(), AllocError>
        ensures ok { OnOk result (self.new.told ≡ with_mark tick news.now self.old.told) }
        ensures err { OnErr result (self.new.told ≡ self.old.told) }
        ensures wanting { OnErr result ((self.new.event_room < length news.now) ⊎ (self.new.mark_room ≡ 0)) }
    {
        let events = self.events.len();
        self.marks.reserve(1)?;
        self.events.reserve(news.len())?;
        let _ = self.events.extend_from_slice(news);
        let _ = self.marks.push(Mark { tick, events });
        Ok(())
    }

    /// Takes back the events of the newest input, which is no tick.
    pub fn undo_input(&mut self)
        ensures { DropsMark self.old.told self.new.told }
    {
        if let Some(mark) = self.marks.pop() {
            self.events.truncate(mark.events);
        }
    }

    /// Takes back the events of all inputs that came later than a tick: with a tick number above it.
    pub fn go_back(&mut self, tick: u32)
        ensures { self.new.told ≡ gone_back tick self.old.told }
    {
        drop_later(&mut self.events, tick);
        drop_later(&mut self.marks, tick);
    }
}
