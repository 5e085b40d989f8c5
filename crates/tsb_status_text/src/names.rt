//! The names of states.
ghost use Rattle.std.specs.Prelude.{◌≡◌, ◌≤◌, length};
ghost use Rattle.tsb_status_text.specs.Names.{desk_name, flash_name, free_name, part_name, preempt_name};

use tsb_step::{FlashStatus, FreeStatus, PreemptState, RingPart};
use tsb_transact::DeskState;

/// The coded part of `ringStatus`.
pub(crate) fn part_name(part: RingPart) -> &'static [u8]
    ensures name { result.now ≡ part_name part }
    ensures short { length result.now ≤ 12 }
{
    match part {
        RingPart::MinimumGreen => b"minimumGreen",
        RingPart::Extension => b"extension",
        RingPart::Maximum => b"maximum",
        RingPart::GreenRest => b"greenRest",
        RingPart::YellowChange => b"yellowChange",
        RingPart::RedClearance => b"redClearance",
        RingPart::RedRest => b"redRest",
    }
}

/// `preemptState`.
pub(crate) fn preempt_name(state: PreemptState) -> &'static [u8]
    ensures name { result.now ≡ preempt_name state }
    ensures short { length result.now ≤ 17 }
{
    match state {
        PreemptState::NotActive => b"notActive",
        PreemptState::NotActiveWithCall => b"notActiveWithCall",
        PreemptState::EntryStarted => b"entryStarted",
        PreemptState::TrackService => b"trackService",
        PreemptState::Dwell => b"dwell",
        PreemptState::ExitStarted => b"exitStarted",
        PreemptState::MaxPresence => b"maxPresence",
    }
}

/// `localFreeStatus`.
pub(crate) fn free_name(free: FreeStatus) -> &'static [u8]
    ensures name { result.now ≡ free_name free }
    ensures short { length result.now ≤ 11 }
{
    match free {
        FreeStatus::NotFree => b"notFree",
        FreeStatus::CommandFree => b"commandFree",
        FreeStatus::BadPlan => b"badPlan",
    }
}

/// `unitFlashStatus`.
pub(crate) fn flash_name(flash: FlashStatus) -> &'static [u8]
    ensures name { result.now ≡ flash_name flash }
    ensures short { length result.now ≤ 8 }
{
    match flash {
        FlashStatus::NotFlash => b"notFlash",
        FlashStatus::Mmu => b"mmu",
    }
}

/// How far a transaction is.
pub(crate) fn desk_name(desk: DeskState) -> &'static [u8]
    ensures name { result.now ≡ desk_name desk }
    ensures short { length result.now ≤ 11 }
{
    match desk {
        DeskState::Normal => b"normal",
        DeskState::Transaction => b"transaction",
        DeskState::Verify => b"verify",
        DeskState::Done => b"done",
    }
}
