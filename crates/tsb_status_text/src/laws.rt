//! What holds of the line of every plan and of that of every desk, each law the contract of a function that does nothing.
ghost use Rattle.tsb_status_text.specs.Laws.{AreReadBack, AreTheirJson, TellDesksApart, TellPlansApart};

use tsb_plan::version_laws::versions_say_the_same;

/// The line of a plan that breaks no rule is read as that plan. Plans of one line are one plan, whatever they break.
///
/// Needs: what a plan in memory always meets: 16 phases, 4 sides, values in range.
/// Not said: that a plan that breaks a rule is read; it has a line too.
/// Mistake: the first index at which an object is 0 ends its table, `entries_to_zero` (`has_both`, `would_lose_4`).
/// Witness: `line_of_two` of Lines, the line of the built-in plan of two phases.
pub fn lines_are_read_back()
    ensures reads { AreReadBack }
    ensures apart { TellPlansApart }
{
    versions_say_the_same();
}

/// The line of a desk is JSON, and tells all of the desk. Its value has owner, state, rule and edits, each as the desk
/// has it, and desks of one line are one desk.
///
/// Needs: what every desk meets: an owner of 1 to 4, edits that a plan takes.
/// Mistake: an edit is told without its index, `edit_without_index` (`tells_2`, `would_tell_same`).
/// Witness: `line_in_verify` of Lines, the line of a desk with an edit that breaks a rule.
pub fn lines_tell_desks()
    ensures json { AreTheirJson }
    ensures apart { TellDesksApart }
{}
