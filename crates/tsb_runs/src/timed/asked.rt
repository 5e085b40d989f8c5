//! The words of the command line.

use thiserror::Error;
use tsb_lines::number;

/// What is measured.
#[derive(Clone, Copy, Debug, PartialEq, Eq)]
pub enum Kind {
    /// Ticks that pass.
    Ticks,
    /// Ticks that are taken back.
    Undo,
    /// The last change of watched values.
    When,
    /// The display lines of a session.
    Lines,
    /// The status after each tick.
    Status,
    /// Each of these.
    All,
    /// Nothing: the log is written.
    Log,
}

/// What the words ask for.
#[derive(Clone, Copy, PartialEq, Eq)]
pub struct Asked<'a> {
    /// The file of the plan.
    pub plan: &'a str,
    /// The number of the random log.
    pub log: u32,
    /// How many ticks there are.
    pub ticks: u32,
    /// What is measured.
    pub kind: Kind,
    /// Whether times are written.
    pub is_timed: bool,
}

impl Asked<'_> {
    /// Whether this is measured.
    pub fn has(&self, kind: Kind) -> bool {
        self.kind == kind || self.kind == Kind::All
    }
}

/// The words ask for nothing.
#[derive(Clone, Copy, Debug, Error, PartialEq, Eq)]
#[error("usage: tsb_runs PLAN LOG TICKS ticks|undo|when|lines|status|all|log [times]")]
pub struct BadWords;

/// What the words ask for, after the program's name.
pub fn read_words(words: &[String]) -> Result<Asked<'_>, BadWords> {
    let (words, is_timed) = match words {
        [words @ .., last] if words.len() == 4 && last.as_str() == "times" => (words, true),
        _ => (words, false),
    };
    let [plan, log, ticks, kind] = words else {
        return Err(BadWords);
    };
    Ok(Asked {
        plan: plan.as_str(),
        log: number(log.as_bytes()).ok_or(BadWords)?,
        ticks: number(ticks.as_bytes()).ok_or(BadWords)?,
        kind: kind_of(kind.as_str()).ok_or(BadWords)?,
        is_timed,
    })
}

fn kind_of(word: &str) -> Option<Kind> {
    match word {
        "ticks" => Some(Kind::Ticks),
        "undo" => Some(Kind::Undo),
        "when" => Some(Kind::When),
        "lines" => Some(Kind::Lines),
        "status" => Some(Kind::Status),
        "all" => Some(Kind::All),
        "log" => Some(Kind::Log),
        _ => None,
    }
}
