//! What holds of a bench of fewer detectors, overlaps and preempts and of one of all of them, each law the contract of a
//! function that does nothing.
ghost use Rattle.tsb_laws.specs.Sizes.{SizesBreakTheSameRule, SizesAgree, SizesShowTheSame, SizesRefuseTheSame, SizesTakeTheSame};

/// A bench of more detectors, overlaps and preempts does what one of fewer does. With a plan that gives them nothing it
/// breaks the same rule first, or none; after any inputs it is in the same state and shows the same, and it takes what
/// the smaller one takes, and refuses what that refuses, for the same cause.
///
/// Needs: of values that a station sets those that the smaller one has a place for, as it refuses the others, `set_17`
/// (`is_refused`, `is_taken`).
/// Mistake: the law of any plan, as one that gives detector 17 a phase is called by it in the larger bench alone,
/// `small_17` (`counts_none`, `counts_one`).
/// Witness: `small_is_right`, `small_shows` and `full_shows` of Examples.
pub fn sizes_do_the_same()
    ensures rules { SizesBreakTheSameRule }
    ensures states { SizesAgree }
    ensures shown { SizesShowTheSame }
    ensures refused { SizesRefuseTheSame }
    ensures taken { SizesTakeTheSame }
{}
