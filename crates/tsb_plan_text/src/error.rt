//! What is wrong with a plan text.

ghost use Rattle.std.specs.Prelude.{◌≡◌, Some};
ghost use Rattle.tsb_plan_text.specs.FaultLines.{plan_fault};

use crate::rules::rule_line;
use std::alloc::AllocError;
use std::fmt;
use thiserror::Error;
use tsb_objects::{Object, Rule};

/// The first fault of a plan text, which then gives no plan. Each is printed as one line without its end, in which a
/// name or an index is as the text decodes it, with any line feed that it has.
///
/// Faults are in the order of the variants, and those of members and of indices in the byte order of their
/// names: a member is judged whole before the next, and so is an index.
#[derive(Debug, Drop, Error)]
#[error("{}", self.line())]
pub enum PlanError {
    /// There is no memory to read the text or to report its fault, or its tree would take too much. The text may have
    /// any fault but `TooLarge`, or none.
    Memory,
    /// The text is longer than `LIMIT`.
    TooLarge,
    /// The text is not JSON in UTF-8.
    NotJson,
    /// The text is JSON, and not a JSON object.
    NotATable,
    /// The member `version` is absent or is not the whole number 1, 2 or 3.
    Version,
    /// A member's name is not `version`, in version 3 not `notes`, and not that of an object of the version.
    NoSuchObject {
        /// The name as the text has it, without JSON's escapes.
        name: String,
    },
    /// What the text gives for an object is not a JSON object.
    ObjectNotATable {
        /// The object.
        object: Object,
    },
    /// An index is not the decimal text of an index of the object in the version, with no leading zero.
    NoSuchIndex {
        /// The object.
        object: Object,
        /// The index as the text has it, without JSON's escapes.
        index: String,
    },
    /// A value is not a whole number of 0 to 4,294,967,295, written without point and exponent.
    NotAWholeNumber {
        /// The object.
        object: Object,
        /// The index as the text has it.
        index: String,
    },
    /// A value is over the greatest of its object in the version.
    OutOfRange {
        /// The object.
        object: Object,
        /// The index as the text has it.
        index: String,
    },
    /// What a text of version 3 gives for `notes` is not a JSON object.
    NotesNotATable,
    /// A note is not a text.
    NoteNotAText {
        /// The name of the note as the text has it, without JSON's escapes.
        name: String,
    },
    /// The plan breaks a rule, this one first.
    Rule(Rule),
}

impl PlanError {
    /// The fault's line, without its end.
    pub fn line(&self) -> PlanLine<'_>
        ensures { result.fault.now ≡ self.now }
    {
        PlanLine { fault: self }
    }
}

/// The line of a fault, without its end. Its `Display` says what it prints, which a derived one does not.
#[derive(Clone, Copy)]
pub struct PlanLine<'a> {
    /// The fault.
    pub fault: &'a PlanError,
}

impl fmt::Display for PlanLine<'_> {
    ghost output = { λ line. Some (plan_fault line.fault.now) };

    fn fmt<W: fmt::Write>(&self, f: &mut fmt::Formatter<W>) -> fmt::Result {
        match self.fault {
            PlanError::Memory => f.write_str("memory"),
            PlanError::TooLarge => f.write_str("plan: too large"),
            PlanError::NotJson => f.write_str("plan: not JSON"),
            PlanError::NotATable => f.write_str("plan: not a table"),
            PlanError::Version => f.write_str("plan: version"),
            PlanError::NoSuchObject { name } => write!(f, "plan: {name}: no such object"),
            PlanError::ObjectNotATable { object } => {
                write!(f, "plan: {}: not a table", object.name())
            }
            PlanError::NoSuchIndex { object, index } => {
                write!(f, "plan: {}.{index}: no such object", object.name())
            }
            PlanError::NotAWholeNumber { object, index } => {
                write!(f, "plan: {}.{index}: not a whole number", object.name())
            }
            PlanError::OutOfRange { object, index } => {
                write!(f, "plan: {}.{index}: out of range", object.name())
            }
            PlanError::NotesNotATable => f.write_str("plan: notes: not a table"),
            PlanError::NoteNotAText { name } => write!(f, "plan: notes.{name}: not a text"),
            PlanError::Rule(rule) => write!(f, "plan: {}", rule_line(*rule)),
        }
    }
}

// These are written by hand: of what `#[from]` would write, no clause says which fault `?` makes.

impl From<AllocError> for PlanError {
    ghost use Rattle.std.specs.Prelude.{◌≡◌};
    ghost use Rattle.tsb_plan_text.specs.declared.error.PlanError.TheVariants.{Memory};

    ghost from_gives = { λ _ e. e ≡ Memory };

    fn from(_refused: AllocError) -> PlanError {
        PlanError::Memory
    }
}

impl From<Rule> for PlanError {
    ghost use Rattle.std.specs.Prelude.{◌≡◌};
    ghost use Rattle.tsb_plan_text.specs.declared.error.PlanError.TheVariants.{Rule as broken};

    ghost from_gives = { λ rule e. e ≡ broken rule };

    fn from(rule: Rule) -> PlanError {
        PlanError::Rule(rule)
    }
}
