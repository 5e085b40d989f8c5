//! The stack that a program needs.
use std::alloc::{AllocError, Global};

/// How many words a page of memory has.
const PAGE: usize = 512;

/// How many pages of the stack a program writes to at its start, 320 KiB: more than all its calls take together.
const ROOM: usize = 80;

/// Whether the machine has memory for the stack that a program needs. If so, that stack is written to: a machine that
/// is short of memory refuses it here, and not in the middle of a run.
///
/// As much memory is asked for before, and given back. A machine that has none says so of memory that is asked for, and
/// ends a program by a signal where its stack does not grow. `mark` is any number that a compiler can't foresee, so that
/// it leaves out no write.
pub(crate) fn has_stack(alloc: Global, mark: u64) -> bool {
    match ask_memory(alloc, mark) {
        Ok(asked) => mark_stack(asked) > 0,
        Err(_) => false,
    }
}

/// Asks for as much memory as the stack takes, and gives it back. The result is a mark for the stack, over 0.
#[inline(never)]
fn ask_memory(alloc: Global, mark: u64) -> Result<u64, AllocError> {
    let mut room: Vec<u64> = Vec::new(alloc);
    room.reserve(ROOM * PAGE)?;
    room.push(mark | 1)?;
    Ok(room.last().copied().unwrap_or(1))
}

/// Writes to the stack, a page at once; it is a function of its own, since a call has its whole room from its start on.
/// The result is a word that was written.
#[inline(never)]
fn mark_stack(mark: u64) -> u64 {
    let page = [mark; PAGE];
    let room = [page; ROOM];
    read_pages(&room)
}

/// Reads each page of a room. The result is over 0 where a word that was read is.
#[inline(never)]
fn read_pages(room: &[[u64; PAGE]]) -> u64 {
    let mut read = 0;
    for page in room {
        read |= page[0];
    }
    read
}
