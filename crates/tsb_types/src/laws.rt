//! What holds of every list of phases, each law the contract of a function that does nothing.
ghost use Rattle.tsb_types.specs.Laws.{NameWhatPasses, AreLists, TellTheirPhases, AreOneIfTheSame};

/// A list in a cell names exactly the phases that pass a test. It is a word of 16 bits, and two lists that name the
/// same phases are the same.
///
/// Mistakes: the bits of a list count from phase 0, `list_from_0` (`names_2`, `names_not_2`); a word of 17 bits is a
/// list too (`would_be_empty`).
/// Witness: `is_its_list` of Mistakes, the list of phase 2.
pub fn lists_tell_their_phases()
    ensures names { NameWhatPasses }
    ensures within { AreLists }
    ensures back { TellTheirPhases }
    ensures one { AreOneIfTheSame }
{}
