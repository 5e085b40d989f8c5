//! The states that NTCIP 1202 names: of a ring, of a preempt, of coordination and of the unit.

/// The coded part of `ringStatus` (NTCIP 1202; NEMA TS 2, coded status bits of a ring), in the order of its codes 0 to 6.
/// Which green is which is the profile's own.
#[derive(Clone, Copy, PartialEq, Eq)]
pub enum RingPart {
    /// Code 0: a green in its initial time, its walk or its pedestrian clearance.
    MinimumGreen,
    /// Code 1: a green after these whose gap has not expired.
    Extension,
    /// Code 2: a green whose gap has expired, and for which another phase waits.
    Maximum,
    /// Code 3: a green whose gap has expired, and for which none waits.
    GreenRest,
    /// Code 4: a yellow change.
    YellowChange,
    /// Code 5: a red clearance.
    RedClearance,
    /// Code 6: no phase of the ring is in service.
    RedRest,
}

/// `preemptState` (NTCIP 1202) of a preempt. Its other values do not occur: no preempt is linked to another.
#[derive(Clone, Copy, PartialEq, Eq)]
pub enum PreemptState {
    /// notActive(2): it is not in service, and its input is off.
    NotActive,
    /// notActiveWithCall(3): it is not in service, and its input or its switch is on.
    NotActiveWithCall,
    /// entryStarted(4): it is in service, and waits for all of its track phases to be Green, or of its dwell phases where
    /// it has no track phase.
    EntryStarted,
    /// trackService(5): its track phases were all Green, and are served.
    TrackService,
    /// dwell(6): its dwell phases are, or are awaited behind the track phases.
    Dwell,
    /// exitStarted(8): its exit phases are served, or awaited.
    ExitStarted,
    /// maxPresence(9): it is not in service, as its dwell ended by its maximum presence, and its input has been on since.
    MaxPresence,
}

/// `localFreeStatus` (NTCIP 1202). Its other values do not occur.
#[derive(Clone, Copy, PartialEq, Eq)]
pub enum FreeStatus {
    /// notFree(2): a pattern runs.
    NotFree,
    /// commandFree(3): no pattern is selected.
    CommandFree,
    /// badPlan(7): a pattern is selected that is not used, as its cycle is 0 since a commit.
    BadPlan,
}

/// `unitFlashStatus` (NTCIP 1202). Its other values do not occur.
#[derive(Clone, Copy, PartialEq, Eq)]
pub enum FlashStatus {
    /// notFlash(2).
    NotFlash,
    /// mmu(6): the monitor has tripped the controller.
    Mmu,
}
