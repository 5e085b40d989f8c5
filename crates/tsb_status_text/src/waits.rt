//! What phases wait for.
ghost use Rattle.std.specs.Prelude.{◌≡◌, ℕ, ◌+◌, ◌-◌, [], ◌∷◌, ◌++◌, ◌≤◌, None, codes, decimal, get_or, length};
ghost use Rattle.tsb_status_text.specs.Json.{member, more, optional};
ghost use Rattle.tsb_lines.specs.ShortLines.{AddsShort};
ghost use Rattle.tsb_status_text.specs.declared.line.TheConstants.{LONGEST};
ghost use Rattle.tsb_status_text.specs.StatusText.{lack_members, lack_name, lack_time, wait_members, wait_name, wait_text, waits_text};

use crate::line::{StatusLine, push_byte, push_named, push_phase, separate};
use tsb_step::{Lack, Wait};
use tsb_types::{Overlap, Phase, Preempt};

/// The name of what is lacking.
fn lack_name(lack: &Lack) -> &'static [u8]
    ensures name { result.now ≡ lack_name lack.now }
    ensures short { length result.now ≤ 9 }
{
    match lack {
        Lack::Walk(_) => b"walk",
        Lack::Clearance(_) => b"clearance",
        Lack::Initial(_) => b"initial",
        Lack::ForceOff => b"forceOff",
        Lack::Gap(_) => b"gap",
    }
}

/// The time that is left of what is lacking.
fn lack_time(lack: &Lack) -> Option<u32>
    ensures { result ≡ lack_time lack.now }
{
    match lack {
        Lack::Walk(left) => Some(*left),
        Lack::Clearance(left) => Some(*left),
        Lack::Initial(left) => Some(*left),
        Lack::ForceOff => None,
        Lack::Gap(left) => Some(*left),
    }
}

/// The name of a wait.
fn wait_name(wait: &Wait) -> &'static [u8]
    ensures name { result.now ≡ wait_name wait.now }
    ensures short { length result.now ≤ 9 }
{
    match wait {
        Wait::Flash => b"flash",
        Wait::Omitted => b"omitted",
        Wait::Preempted(_) => b"preempted",
        Wait::RedRevert(_) => b"redRevert",
        Wait::Next(_) => b"next",
        Wait::Clears(_, _) => b"clears",
        Wait::Across(_, _) => b"across",
        Wait::Beside(_, _) => b"beside",
        Wait::Due => b"due",
        Wait::Crossing(_) => b"crossing",
        Wait::Barrier(_) => b"barrier",
        Wait::Green(_, _) => b"green",
        Wait::Conflict(_) => b"conflict",
        Wait::Turn => b"turn",
        Wait::Trails(_, _, _) => b"trails",
    }
}

/// Adds the phase that is waited for to a line.
fn push_of(line: &mut StatusLine, phase: Phase)
    ensures { AddsShort LONGEST 8 line.old (codes ",\"of\":" ++ decimal phase) line.new }
{
    line.push(b",\"of\":");
    push_byte(line, phase.number());
}

/// Adds the time that is left to a line, and closes what it is of.
fn push_left(line: &mut StatusLine, left: u32)
    ensures { AddsShort LONGEST 19 line.old (more (member (codes "left") (decimal left) ∷ []) 125) line.new }
{
    line.push(b",\"left\":");
    line.push_number(left);
    line.push(b"}");
}

/// Adds what is lacking to a line, and closes what it is of.
fn push_lack(line: &mut StatusLine, lack: &Lack)
    ensures { AddsShort LONGEST 38 line.old (more (lack_members lack.now) 125) line.new }
{
    push_named(line, b",\"lack\":", lack_name(lack));
    match lack_time(lack) {
        None => line.push(b"}"),
        Some(left) => push_left(line, left),
    }
}

/// Adds the phase that is waited for to a line, if there is one, and closes what it is of.
fn push_keeper(line: &mut StatusLine, phase: Option<Phase>)
    ensures { AddsShort LONGEST 11 line.old (more (member (codes "of") (optional phase) ∷ []) 125) line.new }
{
    push_phase(line, b",\"of\":", phase);
    line.push(b"}");
}

/// Adds the phase that is waited for to a line, and closes what it is of.
fn push_only(line: &mut StatusLine, phase: Phase)
    ensures { AddsShort LONGEST 9 line.old (more (member (codes "of") (decimal phase) ∷ []) 125) line.new }
{
    push_of(line, phase);
    line.push(b"}");
}

/// Adds the phase that is waited for to a line, with the time that is left, and closes what they are of.
fn push_clearing(line: &mut StatusLine, phase: Phase, left: u32)
    ensures { AddsShort LONGEST 27 line.old
        (more (member (codes "of") (decimal phase) ∷ member (codes "left") (decimal left) ∷ []) 125) line.new }
{
    push_of(line, phase);
    push_left(line, left);
}

/// Adds the phase that is waited for to a line, with the overlap that holds it and the time that is left, and closes what
/// they are of.
fn push_trailing(line: &mut StatusLine, phase: Phase, overlap: Overlap, left: u32)
    ensures { AddsShort LONGEST 40 line.old
        (more (member (codes "of") (decimal phase) ∷ member (codes "overlap") (decimal overlap) ∷ member (codes "left") (decimal left) ∷ []) 125)
        line.new }
{
    push_of(line, phase);
    line.push(b",\"overlap\":");
    push_byte(line, overlap.number());
    push_left(line, left);
}

/// Adds the preempt that is waited for to a line, and closes what it is of.
fn push_preempt(line: &mut StatusLine, preempt: Preempt)
    ensures { AddsShort LONGEST 15 line.old (more (member (codes "preempt") (decimal preempt) ∷ []) 125) line.new }
{
    line.push(b",\"preempt\":");
    push_byte(line, preempt.number());
    line.push(b"}");
}

/// Adds a green that is waited for to a line, with what it lacks, and closes what they are of.
fn push_green(line: &mut StatusLine, phase: Phase, lack: &Lack)
    ensures { AddsShort LONGEST 46 line.old (more (member (codes "of") (decimal phase) ∷ lack_members lack.now) 125) line.new }
{
    push_of(line, phase);
    push_lack(line, lack);
}

/// Adds the parts of a wait to a line, and closes it.
fn push_members(line: &mut StatusLine, wait: &Wait)
    ensures { AddsShort LONGEST (51 - length (wait_name wait.now)) line.old (more (wait_members wait.now) 125) line.new }
{
    match wait {
        Wait::Flash => line.push(b"}"),
        Wait::Omitted => line.push(b"}"),
        Wait::Due => line.push(b"}"),
        Wait::Turn => line.push(b"}"),
        Wait::RedRevert(left) => push_left(line, *left),
        Wait::Crossing(q) => push_keeper(line, *q),
        Wait::Barrier(q) => push_keeper(line, *q),
        Wait::Preempted(n) => push_preempt(line, *n),
        Wait::Next(q) => push_only(line, *q),
        Wait::Conflict(q) => push_only(line, *q),
        Wait::Clears(q, left) => push_clearing(line, *q, *left),
        Wait::Across(q, left) => push_clearing(line, *q, *left),
        Wait::Beside(q, left) => push_clearing(line, *q, *left),
        Wait::Green(q, lack) => push_green(line, *q, lack),
        Wait::Trails(q, o, left) => push_trailing(line, *q, *o, *left),
    }
}

/// Adds to a line what a phase waits for.
fn push_wait(line: &mut StatusLine, phase: u8, wait: &Wait)
    ensures { AddsShort LONGEST (69 + length (decimal phase)) line.old (wait_text phase wait.now) line.new }
{
    line.push(b"{\"phase\":");
    push_byte(line, phase);
    push_named(line, b",\"for\":", wait_name(wait));
    push_members(line, wait);
}

/// Adds to a line what phases 1 to 16 wait for, those that do.
pub(crate) fn push_waits(line: &mut StatusLine, waits: &[Option<Wait>; 16])
    ensures { AddsShort LONGEST 1144 line.old (waits_text (λ p. get_or waits.now (p - 1) None)) line.new }
{
    line.push(b"[");
    let mut first = true;
    for k in 0..16 {
        match &waits[k] {
            None => {}
            Some(wait) => {
                separate(line, first);
                push_wait(line, k as u8 + 1, wait);
                first = false;
            }
        }
    }
    line.push(b"]");
}
