//! The desk alone, over the plan that its commits put into effect.
ghost use Rattle.std.specs.Prelude.{◌≡◌, false};
ghost use Rattle.tsb_objects.specs.Checked.{checked_plan};
ghost use Rattle.tsb_transact.specs.Cells.{desk_in};
ghost use Rattle.tsb_transact.specs.Desk.{IsPromised};
ghost use Rattle.tsb_transact.specs.Layer.{cells_of, is_open};

use crate::driven::Driven;
use crate::fault::Fault;
use crate::numbers::Numbers;
use std::alloc::Global;
use tsb_cells::{Diff, Reversible};
use tsb_objects::{Checked, Object, ObjectId, Refusal, Station, Version};
use tsb_transact::{CELLS, Desk, DeskState};

/// Why a call was refused, if it was, and what it changed.
type Told = (Option<Refusal>, Diff<CELLS>);

/// The desk, and the plan in effect.
#[derive(Drop)]
pub struct Desking {
    plan: Checked,
    desk: Desk,
    ghost promised: { IsPromised (checked_plan plan) (desk_in (cells_of desk)) },
    ghost closed: { is_open desk ≡ false },
}

impl Desking {
    fn begin(&mut self, station: Station) -> Told {
        self.desk.open();
        let answer = self.desk.begin(station);
        (answer.err(), self.desk.close())
    }

    fn set(&mut self, station: Station, numbers: &mut Numbers) -> Result<Told, Fault> {
        let name = str::from_utf8(numbers.word()?).map_err(|_| Fault::Malformed)?;
        let object = Object::named(Version::NEWEST, name).ok_or(Fault::Malformed)?;
        let index = numbers.number()?;
        let value = numbers.number()?;
        self.desk.open();
        let answer = self.desk.set(station, ObjectId { object, index }, value);
        Ok((answer.err(), self.desk.close()))
    }

    fn verify(&mut self, station: Station) -> Told {
        self.desk.open();
        let plan = self.plan;
        let answer = self.desk.verify(station, &plan);
        (answer.err(), self.desk.close())
    }

    fn commit(&mut self, station: Station, in_service: bool, preempted: bool) -> Told {
        self.desk.open();
        let plan = self.plan;
        let answer = self.desk.commit(station, &plan, in_service, preempted);
        let changes = self.desk.close();
        match answer {
            Ok(plan) => {
                self.plan = plan;
                (None, changes)
            }
            Err(refusal) => (Some(refusal), changes),
        }
    }

    fn abort(&mut self, station: Station) -> Told {
        self.desk.open();
        let answer = self.desk.abort(station);
        (answer.err(), self.desk.close())
    }

    /// Whether the next numbers are the owner, 0 for none, the state, the rule that was kept, 0 for none, and how many
    /// edits there are.
    fn tells(&self, numbers: &mut Numbers) -> Result<(), Fault> {
        match self.desk.owner() {
            Some(station) => numbers.tells(u32::from(station.number()))?,
            None => numbers.tells(0)?,
        }
        numbers.tells(match self.desk.state() {
            DeskState::Normal => 0,
            DeskState::Transaction => 1,
            DeskState::Verify => 2,
            DeskState::Done => 3,
        })?;
        match self.desk.rule() {
            Some(rule) => numbers.tells((rule as u32).saturating_add(1))?,
            None => numbers.tells(0)?,
        }
        numbers.tells(self.desk.edits().len().min(64) as u32)
    }
}

impl Driven for Desking {
    fn power_up(alloc: Global, plan: &Checked) -> Result<Desking, Fault> {
        match Desk::new(alloc) {
            Ok(desk) => Ok(Desking { plan: *plan, desk }),
            Err(_) => Err(Fault::Memory),
        }
    }

    /// A line `begin`, `set`, `verify`, `commit` or `abort`: the station; for a set the object, the index and the
    /// value; for a commit whether something is in service and whether a preempt is; the refusal, what the desk then
    /// says, and what changes.
    fn take(&mut self, kind: &[u8], numbers: Numbers, _plan: &Checked) -> Result<u32, Fault> {
        let mut numbers = numbers;
        let station = Station::new(numbers.number()?).ok_or(Fault::Malformed)?;
        let (refusal, changes) = if kind == b"begin".as_slice() {
            self.begin(station)
        } else if kind == b"set".as_slice() {
            self.set(station, &mut numbers)?
        } else if kind == b"verify".as_slice() {
            self.verify(station)
        } else if kind == b"commit".as_slice() {
            let in_service = numbers.is_one()?;
            let preempted = numbers.is_one()?;
            self.commit(station, in_service, preempted)
        } else if kind == b"abort".as_slice() {
            self.abort(station)
        } else {
            return Err(Fault::Malformed);
        };
        numbers.tells_refusal(refusal)?;
        self.tells(&mut numbers)?;
        numbers.tells_changes(changes.as_slice())?;
        Ok(1)
    }
}
