//! What holds of the desk after every run, as a law: the contract of a function that does nothing.
ghost use Rattle.tsb_laws.specs.Desk.{EditsFit, VerifiedEditsBreakNoRule};

/// Verified edits break no rule. While the desk is in Done its edits, laid over the plan in effect, break no rule; so a
/// commit that is not refused puts no other plan into effect. Each edit at the desk is of an object and an index that
/// this plan has, with a value that it takes there.
///
/// Mistake: a set that leaves the desk in Done, `set_and_done` (`opens_again`, `would_be_done`, `would_break_K8`).
/// Witness: `verified` of Edits.
pub fn verified_edits_break_no_rule()
    ensures right { VerifiedEditsBreakNoRule }
    ensures fit { EditsFit }
{}
