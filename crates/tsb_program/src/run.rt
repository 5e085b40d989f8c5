//! How the programs end: what they write on their devices then, and the status that they end with.
ghost use Rattle.std.specs.Prelude.{◌≡◌, ◌++◌, option_map};
ghost use Rattle.tsb_lines.specs.Seen.{Tells};
ghost use Rattle.tsb_program.specs.Devices.{OnlyTells, ReadsNothing};
ghost use Rattle.tsb_program.specs.Failures.{Fails};
ghost use Rattle.tsb_program.specs.Lines.{TellsEnd, TellsRefusal, Wrote, WroteRefusal};
ghost use Rattle.tsb_program.specs.Runs.{TellsBad, TellsWords};
ghost use Rattle.tsb_program.specs.Statuses.{number};
ghost use Rattle.tsb_program.specs.Told.{FailsFile, Refuses, TellsInputEnd, TellsNoPlan};

use crate::failure::Failure;
use crate::files::FileError;
use crate::lines::{line_of, tell, with_end, write_line};
use crate::read::{PlanFault, ReadError};
use crate::refusal::TextRefusal;
use crate::status::ExitStatus;
use crate::streams::Streams;
use crate::told::{file_line, plan_clue_line, write_both};
use std::alloc::Global;
use std::io::{Read, Write};
use tsb_text::SessionError;
use tsb_words::WordsError;
use tsb_words::near::hint;

/// What lists all faults of a plan that is refused.
const REVIEW: &[u8] = b"all faults, each with its place: tsb_field review PLAN\n";

impl<R: Read, W: Write, E: Write> Streams<R, W, E> {
    /// Writes an answer, and gives the status that the program ends with: this one, or where the answer was not written
    /// whole that of a failed write, which is reported.
    pub fn write(&mut self, status: ExitStatus, text: &[u8]) -> u8
        ensures { ReadsNothing (Wrote result (number status) text.now) self.old self.new }
    {
        match write_line(&mut self.output, text) {
            Ok(()) => status.number(),
            Err(_) => self.fail(Failure::Write),
        }
    }

    /// Writes why a plan is refused, reports what lists all of its faults, and gives the status that the program ends
    /// with. Where the answer was not written whole, that is the status of a failed write, which alone is reported.
    pub fn write_refusal(&mut self, text: &[u8]) -> u8
        ensures { ReadsNothing (WroteRefusal result text.now) self.old self.new }
    {
        let written = write_line(&mut self.output, text);
        match written {
            Ok(()) => self.tell(ExitStatus::Refused, REVIEW),
            Err(_) => self.fail(Failure::Write),
        }
    }

    /// Reports this line of faults, and gives the number of the status.
    pub fn tell(&mut self, status: ExitStatus, line: &[u8]) -> u8
        ensures status { result ≡ number status }
        ensures line { OnlyTells (λ told tells. Tells told tells line.now) self.old self.new }
    {
        tell(&mut self.errors, status, line)
    }

    /// Reports two lines of faults, the second where the first was written, and gives the number of the status.
    fn tell_both(&mut self, status: ExitStatus, first: &[u8], second: &[u8]) -> u8
        ensures status { result ≡ number status }
        ensures lines { OnlyTells (λ told tells. Tells told tells (first.now ++ second.now)) self.old self.new }
    {
        let _ = write_both(&mut self.errors, first, second);
        status.number()
    }

    /// Reports that a read, a write or memory failed, and gives the status that the program ends with.
    pub fn fail(&mut self, failure: Failure) -> u8
        ensures { OnlyTells (Fails failure result) self.old self.new }
    {
        self.tell(ExitStatus::Failed, with_end(failure.line()).as_bytes())
    }

    /// Reports that a file was not read, in a second line which and why, and gives the status that the program ends with.
    pub fn fail_file(&mut self, path: &str, why: FileError) -> u8
        ensures { OnlyTells (FailsFile path.now why result) self.old self.new }
    {
        match why {
            FileError::Memory => self.fail(Failure::Memory),
            FileError::Read(cause) => {
                let second = file_line(path, cause);
                self.tell_both(ExitStatus::Failed, b"read fault\n", second.as_bytes())
            }
        }
    }

    /// Reports why there is no plan or log, in a second line which file was not read, and gives the status that the
    /// program ends with.
    pub fn refuse<T: TextRefusal>(&mut self, alloc: Global, path: &str, fault: ReadError<T>) -> u8
        ensures { OnlyTells (Refuses T.told path.now fault result) self.old self.new }
    {
        match fault {
            ReadError::Failed(unread) => self.fail_file(path, unread),
            ReadError::Refused(refusal) => self.tell_refusal(alloc, refusal),
        }
    }

    /// Reports why a text was refused, where there is memory for the line, and gives the status that the program ends
    /// with.
    fn tell_refusal<T: TextRefusal>(&mut self, alloc: Global, fault: T) -> u8
        ensures { OnlyTells (TellsRefusal T.told fault result) self.old self.new }
    {
        match fault.ended_line(alloc) {
            Ok(line) => self.tell(ExitStatus::Refused, line.as_bytes()),
            Err(_) => self.fail(Failure::Memory),
        }
    }

    /// Reports why there is no plan, and gives the status that the program ends with. A second line has what is said of
    /// the text, or which file was not read.
    pub fn refuse_plan(&mut self, alloc: Global, path: &str, fault: PlanFault) -> u8
        ensures { OnlyTells (TellsNoPlan path.now fault result) self.old self.new }
    {
        let PlanFault { why, clue } = fault;
        match why {
            ReadError::Failed(why) => self.fail_file(path, why),
            ReadError::Refused(why) => match line_of(alloc, why.line()) {
                Ok(line) => {
                    let second = plan_clue_line(clue);
                    self.tell_both(ExitStatus::Refused, line.as_bytes(), second.as_bytes())
                }
                Err(_) => self.fail(Failure::Memory),
            },
        }
    }

    /// Reports what ended a session before its commands did, and gives the status that the program ends with.
    pub fn tell_end(&mut self, fault: SessionError) -> u8
        ensures { OnlyTells (TellsEnd fault result) self.old self.new }
    {
        self.tell(ExitStatus::Failed, with_end(fault.line()).as_bytes())
    }

    /// Reports what ended a run on standard input before that did, which a second line names where it was not read, and
    /// gives the status that the program ends with.
    pub fn tell_input_end(&mut self, fault: SessionError) -> u8
        ensures { OnlyTells (TellsInputEnd fault result) self.old self.new }
    {
        match fault {
            SessionError::Read => self.fail(Failure::Input),
            _ => self.tell_end(fault),
        }
    }

    /// Reports why words ask for nothing, and gives the status that the program ends with. For bad words it writes which
    /// right word was perhaps meant, or else this line, which has its end.
    pub fn tell_words_fault(&mut self, near: Option<&str>, line: &[u8], fault: WordsError) -> u8
        ensures { OnlyTells (TellsWords (option_map (λ right. right.now) near.entry) line.now fault result) self.old self.new }
    {
        match fault {
            WordsError::Memory => self.fail(Failure::Memory),
            WordsError::Bad => self.tell_bad_words(near, line),
        }
    }

    /// Reports which right word was perhaps meant by bad words, or else this line.
    fn tell_bad_words(&mut self, near: Option<&str>, line: &[u8]) -> u8
        ensures { OnlyTells (TellsBad (option_map (λ right. right.now) near.entry) line.now result) self.old self.new }
    {
        match near {
            Some(right) => self.tell(ExitStatus::BadWords, hint(right).as_bytes()),
            None => self.tell(ExitStatus::BadWords, line),
        }
    }
}
