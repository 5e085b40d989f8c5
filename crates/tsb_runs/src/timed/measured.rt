//! What is measured.

use crate::timed::counted::Counted;
use crate::timed::watches::watches;
use anyhow::Result;
use std::alloc::AllocError;
use std::time::Instant;
use tsb_step::Input;
use tsb_text::{Bench, Checked, Log, Watched, line, session};

/// How many times the last change of each watched value is asked for. A tick is taken back between one time and the
/// next.
const TIMES: u32 = 10;

/// A random log, and the plan that runs with it.
#[derive(Clone, Copy)]
pub struct Measured<'a> {
    /// Where what was counted is written to.
    pub rt: &'a HostRuntime,
    /// The plan.
    pub plan: Checked,
    /// The log.
    pub log: &'a Log,
    /// How many ticks of the log there are.
    pub ticks: u32,
    /// Whether times are written.
    pub is_timed: bool,
}

impl Measured<'_> {
    /// Lets the ticks pass, and writes how many there were.
    pub fn pass(&self) -> Result<Bench> {
        let Ok(mut bench) = Bench::power_up(self.rt.alloc(), self.plan) else {
            return Err(AllocError.into());
        };
        let mut place = 0;
        let start = Instant::now(self.rt)?;
        for k in 0..self.ticks {
            let row = self.log.row(k + 1, &mut place);
            if bench.apply(Input::Tick(row)).is_err() {
                break;
            }
        }
        self.tell("ticks", start)?;
        println!(self.rt; "{} ticks: {}", bench.now(), line(&bench).as_str())?;
        Ok(bench)
    }

    /// Lets the ticks pass and takes them back, and writes how many remain.
    pub fn take_back(&self) -> Result<()> {
        let mut bench = self.pass()?;
        let start = Instant::now(self.rt)?;
        let mut inputs = 0u32;
        for _k in 0..self.ticks {
            if bench.undo().is_err() {
                break;
            }
            inputs = inputs.saturating_add(1);
        }
        self.tell("undo", start)?;
        println!(self.rt; "{inputs} taken back: {}", line(&bench).as_str())?;
        Ok(())
    }

    /// Lets the ticks pass and asks for the last changes of watched values, and writes them.
    pub fn ask(&self) -> Result<()> {
        let mut bench = self.pass()?;
        for (name, watch) in watches() {
            match bench.when(watch) {
                Some(tick) => println!(self.rt; "when {name}: tick {tick:07}")?,
                None => println!(self.rt; "when {name}: never")?,
            }
        }
        let mut records = 0u64;
        let start = Instant::now(self.rt)?;
        for _k in 0..TIMES {
            for (_name, watch) in watches() {
                let first = bench.when(watch).unwrap_or(1);
                let read = u64::from(bench.now().saturating_sub(first)).saturating_add(1);
                records = records.saturating_add(read);
            }
            let _ = bench.undo();
        }
        self.tell("when", start)?;
        println!(self.rt; "{records} records read")?;
        Ok(())
    }

    /// Steps through the ticks in a session, and writes how many lines and bytes it writes.
    pub fn step(&self) -> Result<()> {
        let commands = format!(in self.rt.alloc(); "step {}\n", self.ticks)?;
        let mut reader = Watched::new(commands.as_bytes());
        let mut writer = Watched::new(Counted::none());
        let start = Instant::now(self.rt)?;
        session(
            self.rt.alloc(),
            self.plan,
            self.log,
            true,
            &mut reader,
            &mut writer,
        )?;
        self.tell("lines", start)?;
        let Counted { lines, bytes, sum } = *writer.device();
        println!(self.rt; "{lines} lines of {bytes} bytes, sum {sum}")?;
        Ok(())
    }

    /// Lets the ticks pass and asks for the status after each, and writes how many waits it found.
    pub fn ask_status(&self) -> Result<()> {
        let Ok(mut bench) = Bench::power_up(self.rt.alloc(), self.plan) else {
            return Err(AllocError.into());
        };
        let (mut place, mut statuses, mut waits) = (0, 0u32, 0u32);
        let start = Instant::now(self.rt)?;
        for k in 0..self.ticks {
            let row = self.log.row(k + 1, &mut place);
            if bench.apply(Input::Tick(row)).is_err() {
                break;
            }
            statuses = statuses.saturating_add(1);
            for wait in bench.status().waits {
                waits = waits.saturating_add(u32::from(wait.is_some()));
            }
        }
        self.tell("status", start)?;
        println!(self.rt; "{statuses} statuses with {waits} waits")?;
        Ok(())
    }

    /// Writes how long something took, where times are written.
    fn tell(&self, name: &str, start: Instant) -> Result<()> {
        if self.is_timed {
            let time = start.elapsed(self.rt)?;
            println!(self.rt; "{name}: {time:?}")?;
        }
        Ok(())
    }
}
