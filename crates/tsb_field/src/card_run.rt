//! `card`: a plan in, the card of a conflict monitor out, or what another card has otherwise.
ghost use Rattle.std.specs.Prelude.{◌≡◌, OnErr, OnOk, option_map, true};
ghost use Rattle.tsb_card.specs.Card.{permits};
ghost use Rattle.tsb_card.specs.Lines.{card_text, others_text};
ghost use Rattle.tsb_card.specs.Reading.{pairs_of};
ghost use Rattle.tsb_card.specs.declared.read.CardFault.TheVariants as faults;
ghost use Rattle.tsb_lines.specs.Writes.{AppendsFront};
ghost use Rattle.tsb_program.specs.Devices.{ReadsNothing};
ghost use Rattle.tsb_program.specs.tsb_lines.Seen.{GoesOut, seen};
ghost use Rattle.tsb_field.specs.CardEnds.{CardGiven, Carded, Compared, ReadCompared, fault_line, status_of};
ghost use Rattle.tsb_field.specs.ReviewEnds.{Answered};

use std::alloc::Global;
use std::io::{Read, Write};
use tsb_card::{
    Card, CardFault, LIMIT, card_of, differs, read_card, write_card, write_differences,
};
use tsb_lines::{ShortLine, WriteError};
use tsb_program::{ExitStatus, Failure, Files, Streams, Watched, plan_or_place, read_file};

/// The status where a card differs.
const DIFFERS: u8 = 5;

/// The most bytes of the line of a fault.
const FAULT: usize = 40;

/// Writes the card of the plan in a file, or what the card in another file has otherwise, and gives the status that the
/// program ends with. A card that is too large is read up to one byte more than the longest has.
pub(crate) fn write_card_of<F: Files, R: Read, W: Write, E: Write>(
    alloc: Global,
    path: &str,
    against: Option<&str>,
    files: &F,
    streams: &mut Streams<R, W, E>,
) -> u8
    ensures { ReadsNothing (Carded result path.now (option_map (λ path. path.now) against.entry) (F.bytes files.now)) streams.old streams.new }
{
    match plan_or_place(alloc, files, path) {
        Ok(plan) => write_either(alloc, &card_of(plan.plan()), against, files, streams),
        Err(fault) => streams.refuse_plan(alloc, path, fault),
    }
}

/// Writes a card, or where words name a file, what the card there has otherwise.
fn write_either<F: Files, R: Read, W: Write, E: Write>(
    alloc: Global,
    wanted: &Card,
    against: Option<&str>,
    files: &F,
    streams: &mut Streams<R, W, E>,
) -> u8
    ensures { ReadsNothing (CardGiven (permits wanted.now) (option_map (λ path. path.now) against.entry) (F.bytes files.now) result) streams.old streams.new }
{
    match against {
        None => write_wanted(wanted, streams),
        Some(path) => compare(alloc, wanted, path, files, streams),
    }
}

/// Writes a card.
fn write_wanted<R: Read, W: Write, E: Write>(card: &Card, streams: &mut Streams<R, W, E>) -> u8
    ensures { ReadsNothing (Answered result 0 (card_text (permits card.now))) streams.old streams.new }
{
    match write_passed(card, &mut streams.output) {
        Ok(()) => ExitStatus::Done.number(),
        Err(_) => streams.fail(Failure::Write),
    }
}

/// Writes a card, and has the writer pass it on. At an error its first bytes may have gone out.
fn write_passed<W: Write>(card: &Card, output: &mut Watched<W>) -> Result<(), WriteError>
    ensures whole { OnOk result (GoesOut (seen W.contents output.old) (seen W.contents output.new) (card_text (permits card.now))) }
    ensures front { AppendsFront (W.contents output.old.device) (W.contents output.new.device) (card_text (permits card.now)) }
    ensures blame { OnErr result (output.new.failed ≡ true) }
    ensures well { OnOk result (output.new.failed ≡ output.old.failed) }
{
    match write_card(card, output) {
        Ok(()) => output.pass_on(),
        Err(fault) => Err(fault),
    }
}

/// Compares the card in a file with the one that is wanted.
fn compare<F: Files, R: Read, W: Write, E: Write>(
    alloc: Global,
    wanted: &Card,
    path: &str,
    files: &F,
    streams: &mut Streams<R, W, E>,
) -> u8
    ensures { ReadsNothing (Compared (permits wanted.now) path.now (F.bytes files.now path.now) result) streams.old streams.new }
{
    match read_file(alloc, files, path, LIMIT + 1) {
        Ok(text) => compare_text(wanted, &text, streams),
        Err(fault) => streams.fail_file(path, fault),
    }
}

/// Compares the card that a text is with the one that is wanted.
fn compare_text<R: Read, W: Write, E: Write>(
    wanted: &Card,
    text: &[u8],
    streams: &mut Streams<R, W, E>,
) -> u8
    ensures { ReadsNothing (ReadCompared (permits wanted.now) (pairs_of text.now) result) streams.old streams.new }
{
    match read_card(text) {
        Ok(found) => write_compared(wanted, &found, streams),
        Err(fault) => streams.tell(ExitStatus::Refused, fault_line(fault).as_bytes()),
    }
}

/// The line of a fault.
fn fault_line(fault: CardFault) -> ShortLine<FAULT>
    ensures { result ≡ fault_line fault }
{
    match fault {
        CardFault::TooLarge => large_line(),
        CardFault::Malformed(line) => malformed_line(line),
    }
}

/// The line of a text that is too large.
fn large_line() -> ShortLine<FAULT>
    ensures { result ≡ fault_line faults.TooLarge }
{
    let mut text = ShortLine::new();
    text.push(b"card: too large\n");
    text
}

/// The line of a line that is no pair.
fn malformed_line(line: u32) -> ShortLine<FAULT>
    ensures { result ≡ fault_line (faults.Malformed line) }
{
    let mut text = ShortLine::new();
    text.push(b"card line ");
    text.push_number(line);
    text.push(b": malformed\n");
    text
}

/// The status where a card was compared with the one that is wanted.
fn status_of(wanted: &Card, found: &Card) -> u8
    ensures { result ≡ status_of (permits wanted.now) (permits found.now) }
{
    if differs(wanted, found) {
        DIFFERS
    } else {
        ExitStatus::Done.number()
    }
}

/// Writes what a card has otherwise than the one that is wanted.
fn write_compared<R: Read, W: Write, E: Write>(
    wanted: &Card,
    found: &Card,
    streams: &mut Streams<R, W, E>,
) -> u8
    ensures { ReadsNothing (Answered result (status_of (permits wanted.now) (permits found.now)) (others_text (permits wanted.now) (permits found.now))) streams.old streams.new }
{
    match pass_others(wanted, found, &mut streams.output) {
        Ok(()) => status_of(wanted, found),
        Err(_) => streams.fail(Failure::Write),
    }
}

/// Writes it, and has the writer pass it on. At an error its first bytes may have gone out.
fn pass_others<W: Write>(
    wanted: &Card,
    found: &Card,
    output: &mut Watched<W>,
) -> Result<(), WriteError>
    ensures whole { OnOk result (GoesOut (seen W.contents output.old) (seen W.contents output.new) (others_text (permits wanted.now) (permits found.now))) }
    ensures front { AppendsFront (W.contents output.old.device) (W.contents output.new.device) (others_text (permits wanted.now) (permits found.now)) }
    ensures blame { OnErr result (output.new.failed ≡ true) }
    ensures well { OnOk result (output.new.failed ≡ output.old.failed) }
{
    match write_differences(wanted, found, output) {
        Ok(()) => output.pass_on(),
        Err(fault) => Err(fault),
    }
}
