//! The words of a line, one after the other: what a layer is given, and what it has to answer.

use crate::fault::Fault;
use tsb_lines::{next_word, number};
use tsb_objects::{
    DetectorSet, Intervals, NumberSet, Pattern, Pedestrians, Phase, PhaseSet, Preempt, Refusal,
};

/// What is left of a line.
#[derive(Clone, Copy)]
pub struct Numbers<'a> {
    rest: &'a [u8],
}

impl<'a> Numbers<'a> {
    /// All of a line.
    pub fn of(line: &'a [u8]) -> Numbers<'a> {
        Numbers { rest: line }
    }

    /// The next word.
    pub fn word(&mut self) -> Result<&'a [u8], Fault> {
        let (word, rest) = next_word(self.rest).ok_or(Fault::Malformed)?;
        self.rest = rest;
        Ok(word)
    }

    /// The next word, which is a number.
    pub fn number(&mut self) -> Result<u32, Fault> {
        let word = self.word()?;
        number(word).ok_or(Fault::Malformed)
    }

    /// The next number, which is 0 or 1.
    pub fn is_one(&mut self) -> Result<bool, Fault> {
        match self.number()? {
            0 => Ok(false),
            1 => Ok(true),
            _ => Err(Fault::Malformed),
        }
    }

    /// The next number, which is a list: the sum of `2^(n - 1)` over the numbers n of a set.
    pub fn list(&mut self) -> Result<u16, Fault> {
        let list = self.number()?;
        if list < 65_536 {
            Ok(list as u16)
        } else {
            Err(Fault::Malformed)
        }
    }

    /// The next number, a list of phases.
    pub fn phases(&mut self) -> Result<PhaseSet, Fault> {
        Ok(PhaseSet::from_list(self.list()?))
    }

    /// The next number, a list of vehicle detectors; stored runs have 1 to 16.
    pub fn detectors(&mut self) -> Result<DetectorSet, Fault> {
        Ok(DetectorSet::from_list(u64::from(self.list()?)))
    }

    /// The next number, a list of pedestrian detectors or of preempts.
    pub fn set(&mut self) -> Result<NumberSet, Fault> {
        Ok(NumberSet::from_list(self.list()?))
    }

    /// The next number, a phase, or 0 for none.
    pub fn phase(&mut self) -> Result<Option<Phase>, Fault> {
        Ok(Phase::new(self.number()?))
    }

    /// The next number, a pattern, or 0 for none.
    pub fn pattern(&mut self) -> Result<Option<Pattern>, Fault> {
        Ok(Pattern::new(self.number()?))
    }

    /// The next number, a preempt, or 0 for none.
    pub fn preempt(&mut self) -> Result<Option<Preempt>, Fault> {
        Ok(Preempt::new(self.number()?))
    }

    /// The next three numbers, the phases that are Green, in yellow change and in red clearance.
    pub fn intervals(&mut self) -> Result<Intervals, Fault> {
        Ok(Intervals {
            green: self.phases()?,
            yellow: self.phases()?,
            red_clear: self.phases()?,
        })
    }

    /// The next two numbers, the phases in Walk and in pedestrian clearance.
    pub fn pedestrians(&mut self) -> Result<Pedestrians, Fault> {
        Ok(Pedestrians {
            walk: self.phases()?,
            clearance: self.phases()?,
        })
    }

    /// Whether the next number is this one.
    pub fn tells(&mut self, value: u32) -> Result<(), Fault> {
        if self.number()? == value {
            Ok(())
        } else {
            Err(Fault::Differs)
        }
    }

    /// Whether the next number is the list of these phases.
    pub fn tells_phases(&mut self, phases: PhaseSet) -> Result<(), Fault> {
        self.tells(u32::from(phases.list()))
    }

    /// Whether the next number is the list of these vehicle detectors.
    pub fn tells_detectors(&mut self, detectors: DetectorSet) -> Result<(), Fault> {
        if u64::from(self.number()?) == detectors.list() {
            Ok(())
        } else {
            Err(Fault::Differs)
        }
    }

    /// Whether the next number is this phase, or 0 for none.
    pub fn tells_phase(&mut self, phase: Option<Phase>) -> Result<(), Fault> {
        match phase {
            Some(phase) => self.tells(u32::from(phase.number())),
            None => self.tells(0),
        }
    }

    /// Whether the next number is this pattern, or 0 for none.
    pub fn tells_pattern(&mut self, pattern: Option<Pattern>) -> Result<(), Fault> {
        match pattern {
            Some(pattern) => self.tells(u32::from(pattern.number())),
            None => self.tells(0),
        }
    }

    /// Whether the next number is that of this refusal, E1 to E12, or 0 for none.
    pub fn tells_refusal(&mut self, refusal: Option<Refusal>) -> Result<(), Fault> {
        match refusal {
            Some(refusal) => self.tells(number_of(refusal)),
            None => self.tells(0),
        }
    }

    /// Whether the line ends here.
    pub fn ends(&self) -> Result<(), Fault> {
        match next_word(self.rest) {
            Some(_) => Err(Fault::Malformed),
            None => Ok(()),
        }
    }

    /// Whether the rest of the line is these changes: how many there are, and for each the cell and what it held.
    pub fn tells_changes(&mut self, changes: &[(u16, u32)]) -> Result<(), Fault> {
        self.tells(changes.len().min(65_535) as u32)?;
        for (cell, held) in changes {
            self.tells(u32::from(*cell))?;
            self.tells(*held)?;
        }
        self.ends()
    }
}

fn number_of(refusal: Refusal) -> u32 {
    match refusal {
        Refusal::Memory => 1,
        Refusal::NoSuchObject => 2,
        Refusal::OutOfRange => 3,
        Refusal::Busy(_) => 4,
        Refusal::NotOwner => 5,
        Refusal::NotOpen => 6,
        Refusal::NotVerified => 7,
        Refusal::TooManyEdits => 8,
        Refusal::NoSuchPattern => 9,
        Refusal::NoSuchPreempt => 10,
        Refusal::TickLimit => 11,
        Refusal::InService => 12,
    }
}
