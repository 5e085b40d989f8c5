//! What holds of the versions of plan texts and of the names in them, each law the contract of a function
//! that does nothing.
ghost use Rattle.tsb_plan.specs.VersionLaws.{TranslateWithin, TranslateApart, TakeNoOther, KeepSplits, KeepPlaces, KeepVersion2, DifferInTypes, DifferInCounts, LoseNoObject, AreToldByName};

/// Each index of version 1 has its own place in a plan. A translated index is one that the object has, no two become
/// one, values stay in range; split tables and sequences keep their numbers; no two objects have one name. A later
/// version has all objects of an earlier one. Version 3 has those of version 2 as they are there, of more detectors,
/// overlaps and preempts, and with overlaps of type 2.
///
/// Mistake: an index of version 1 stays as it is, `kept_as_it_is` (`becomes_17`, `would_stay_9`).
/// Witness: `has_9`, `becomes_17` of Mistakes, phase 1 of split table 2.
pub fn versions_say_the_same()
    ensures within { TranslateWithin }
    ensures apart { TranslateApart }
    ensures values { TakeNoOther }
    ensures splits { KeepSplits }
    ensures places { KeepPlaces }
    ensures kept { KeepVersion2 }
    ensures types { DifferInTypes }
    ensures counts { DifferInCounts }
    ensures lost { LoseNoObject }
    ensures names { AreToldByName }
{}
