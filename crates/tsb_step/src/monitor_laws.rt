//! What holds of the cells of the monitor and of the injected lamp, each law the contract of a function that does
//! nothing.
ghost use Rattle.tsb_step.specs.MonitorLaws.{MonitorRowsAreTold, MonitorStatesAreRead, MonitorRowsStay};

/// The cells of the monitor and of the injected lamp are read as what they are. A row that the monitor can have is the
/// encoding of what is read in it, and the encoding of a state in range reads back as that state; what it can have at a
/// tick it can have at each later one.
///
/// Mistake: a row without the second phase of a conflict (`has_the_second`, `would_tell_another`).
/// Witness: `is_told` of OtherRuns.
pub fn monitor_cells_tell_the_monitor()
    ensures told { MonitorRowsAreTold }
    ensures read { MonitorStatesAreRead }
    ensures stay { MonitorRowsStay }
{}
