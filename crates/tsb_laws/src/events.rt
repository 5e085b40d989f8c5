//! What the events of a run show, each law the contract of a function that does nothing.
ghost use Rattle.tsb_laws.specs.Told.{InputsMakeTheLog, LinesAreReadInRuns, LinesTellTheSame, RunsTellTheHeads, RunsTellTheInputs};

/// `read`: The display line of each state of a run, wide or not, is read as what it shows. `shown_in` has its tick, and
/// what the letters of its heads say.
///
/// Not said: the local counter of the line, as `tsb_field events` makes no event of it.
/// Mistake: the tick of the line before (`reads_1`, `would_read_0`).
/// Witness: `a_trip` of LineRuns.
///
/// `same`: Display lines tell what the controller tells. The events that come of the lines before and after an input are
/// those of the same codes among the events of this input, in the same order. Where lines are not wide, they are those
/// of overlaps 1 to 4. So where each input has its line, `events` of tsb_field gives the same of these codes.
///
/// Needs: at most 16 phases, as every plan in memory has. In flash some enabled phase flashes, as a rule of plans wants
/// one (K1), and a display line shows no phase beyond 16 (`in_flash`, `out_of_sight`). Preempts need nothing: where one
/// follows another, both have it enter.
/// Not said: anything of lines between which there are several inputs.
/// Mistake: greens by the intervals of phases alone, which a trip leaves (`still_green`, `shows_none`).
/// Witness: `a_trip`, `trip_lines` and `trip_told` of LineRuns.
pub fn lines_tell_what_inputs_tell()
    ensures read { LinesAreReadInRuns }
    ensures same { LinesTellTheSame }
{}

/// The events of a run tell its heads back. They say which heads are green, yellow, in walk and in clearance at its end,
/// which arrows flash, and whether the controller is in flash. The last event that says something of a head decides.
///
/// Needs: as `lines_tell_what_inputs_tell`.
/// Not said: red as against dark, for which the enumerations have no event; a lamp that a fault lights, as the display
/// is the controller's own.
/// Mistake: greens by the intervals of phases alone, so that a trip ends none (`still_green`, `shows_none`).
/// Witness: `a_trip` and `told_back` of LineRuns.
pub fn runs_tell_the_heads()
    ensures { RunsTellTheHeads }
{}

/// `log`: The events of inputs among those of a run make its log again. They are the events of the rows of its ticks, of
/// which a log has those that change (`log_of`).
///
/// Needs: a record without outputs, whose detectors go on and off before delay and extension (`by_output`); and no
/// operator's switch of a preempt on in the run, which asks for a preempt that no row does (`switched_told`).
/// Mistake: events of inputs against all off, and not against the tick before (`goes_on`, `would_come_again`).
/// Witness: `two_rows`, `two_told` and `no_switch` of LineRuns.
///
/// `row`: The events of a run tell what is on at its end: of each vehicle detector its input in the newest tick, or its
/// output where the record has outputs; of each pedestrian detector its input; of each preempt its input or switch. The
/// last event that says something of it decides. So they tell the row of each tick, by what the run has told as far as
/// that tick.
///
/// Mistake: an input that goes off has no event, so that it stays on (`stays_on`, `is_off`).
/// Witness: `two_told` and `switched_told` of LineRuns.
pub fn inputs_make_the_log()
    ensures log { InputsMakeTheLog }
    ensures row { RunsTellTheInputs }
{}
