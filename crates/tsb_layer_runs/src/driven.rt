//! A layer that is driven by the lines of a file.
ghost use Rattle.std.specs.Prelude.{◌≡◌};
ghost use Rattle.arrayvec.specs.ArrayVec.{array_vec_len};

use crate::fault::Fault;
use crate::numbers::Numbers;
use crate::plans::Plans;
use arrayvec::ArrayVec;
use std::alloc::Global;
use std::io::{self, Write};
use tsb_lines::{next_line, next_word};
use tsb_objects::Checked;

/// The cells that a tick changes, with what they held.
pub type Changes = ArrayVec<(u16, u32), 256>;

/// A layer alone, driven by lines that say what it is given and what comes of it.
pub trait Driven: Drop {
    /// The layer as at power-up, by a plan.
    fn power_up(alloc: Global, plan: &Checked) -> Result<Self, Fault>
    where
        Self: Sized;

    /// Does what a line of this kind says, and gives how many ticks or calls that was.
    fn take(&mut self, kind: &[u8], numbers: Numbers, plan: &Checked) -> Result<u32, Fault>;
}

/// A layer that has ticks, with what a line `t` says of them.
pub trait Ticked: Drop {
    /// What a tick gives it.
    type Given: Drop;

    /// What it answers to a tick.
    type Answer: Drop;

    /// What the next numbers give it.
    fn read(numbers: &mut Numbers) -> Result<Self::Given, Fault>;

    /// Puts what it is given into free operation.
    fn free(_given: &mut Self::Given) {}

    /// One tick, with its record.
    fn tick(
        &mut self,
        given: &Self::Given,
        plan: &Checked,
        out: &mut Changes,
    ) -> Result<Self::Answer, Fault>
        requires { array_vec_len out.old ≡ 0 };

    /// Whether the line says that it answers this to the tick. A line that is only timed says nothing of it.
    fn tells(
        &self,
        _given: &Self::Given,
        _answer: &Self::Answer,
        _answers: &mut Numbers,
    ) -> Result<(), Fault> {
        Ok(())
    }

    /// Whether a tick with this answer has to be worked out though it changes no cell.
    #[inline(always)]
    fn is_due(_answer: &Self::Answer) -> bool {
        false
    }

    /// How many ticks after the next one change nothing where that one changes nothing and they are given the same. A
    /// layer without timers changes nothing then.
    #[inline(always)]
    fn spare(&self, _given: &Self::Given, _plan: &Checked) -> u32 {
        u32::MAX
    }

    /// Passes over a tick that changes nothing.
    #[inline(always)]
    fn pass(&mut self) {}
}

/// A line `t`: how many ticks, what each gives the layer, what it answers, and what the first changes; the others
/// change nothing.
pub fn ticks<T: Ticked>(layer: &mut T, numbers: Numbers, plan: &Checked) -> Result<u32, Fault> {
    let mut numbers = numbers;
    let times = numbers.number()?;
    let given = T::read(&mut numbers)?;
    let mut changes = Changes::new();
    for k in 0..times {
        changes.clear();
        let answer = layer.tick(&given, plan, &mut changes)?;
        let mut answers = numbers;
        layer.tells(&given, &answer, &mut answers)?;
        if k == 0 {
            answers.tells_changes(changes.as_slice())?;
        } else if !changes.is_empty() {
            return Err(Fault::Differs);
        }
    }
    Ok(times)
}

/// A layer and the plan that it runs.
#[derive(Drop)]
struct Driving<'a, D> {
    layer: D,
    plan: &'a Checked,
}

/// Drives a layer by the lines of a text, and writes how many ticks or calls were as the lines say, or the first line
/// that does not pass.
pub fn check<D: Driven, W: Write>(
    alloc: Global,
    name: &str,
    plans: &Plans,
    text: &[u8],
    output: &mut W,
) -> io::Result<()> {
    let mut driving: Option<Driving<D>> = None;
    let mut passed: u64 = 0;
    let mut rest = text;
    for place in 0..text.len() {
        let (line, behind) = next_line(rest);
        match follow(alloc, plans, &mut driving, line) {
            Ok(count) => passed = passed.saturating_add(u64::from(count)),
            Err(fault) => {
                writeln!(output, "{name}: line {}: {fault}", place + 1)?;
                return Ok(());
            }
        }
        match behind {
            Some(behind) => rest = behind,
            None => break,
        }
    }
    writeln!(output, "{name}: {passed} as they should be")
}

/// Does what a line says: `plan K` begins with plan K, and every other line is the layer's.
fn follow<'a, D: Driven>(
    alloc: Global,
    plans: &'a Plans,
    driving: &mut Option<Driving<'a, D>>,
    line: &[u8],
) -> Result<u32, Fault> {
    let Some((kind, rest)) = next_word(line) else {
        return Ok(0);
    };
    let mut numbers = Numbers::of(rest);
    if kind == b"plan".as_slice() {
        let plan = plans.get(numbers.number()?)?;
        let layer = D::power_up(alloc, plan)?;
        *driving = Some(Driving { layer, plan });
        return Ok(0);
    }
    match driving {
        Some(driving) => driving.layer.take(kind, numbers, driving.plan),
        None => Err(Fault::Malformed),
    }
}
