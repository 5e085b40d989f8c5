//! What transactions at the desk do to the controller, each law the contract of a function that does nothing.
ghost use Rattle.tsb_step.specs.DeskLaws.{ChangeTheDeskAlone, LeaveTheDesk, ActByPlansAlone, ShowTheSame};

/// Stations change nothing before a commit. Begin, Set, Verify and Abort change nothing but the desk, and no other
/// input but a commit changes it, from any state.
///
/// Mistakes: a set that acts at once, `step_at_once` (`acts_not`, `acts_at_once`); a reset that closes the desk,
/// `reset_closes` (`keeps_owner`, `would_be_closed`).
/// Witness: `acts_not` of DeskLawMistakes, `keeps_owner` of EndMistakes.
pub fn desk_inputs_change_the_desk()
    ensures alone { ChangeTheDeskAlone }
    ensures others { LeaveTheDesk }
{}

/// Only the plans put into effect matter. Two runs from one plan whose inputs are the same once those of the desk are
/// left out, and whose commits put the same plans into effect in turn, end in states that are equal, the desk aside,
/// and show the same. This holds for any edits, of any station, with refused inputs among them.
///
/// Not said: that two different plans act alike.
/// Mistakes: a set that acts at once, `step_at_once`; an abort that puts its edits into effect, `step_on_abort`
/// (`gives_up`, `gives_up_not`); a value set again as one more edit, `with_edit_too` (`forgets_not`, `forgets`).
/// Witness: `straight` and `roundabout`.
pub fn desks_act_by_plans()
    ensures plans { ActByPlansAlone }
    ensures display { ShowTheSame }
{}
