//! What holds of all lines and words, each law the contract of a function that does nothing.
ghost use Rattle.tsb_lines.specs.Laws.{EndAtSpaces, EndAtTheEnd, HaveNoFeed, IgnoreSpaces, MakeUpTheText};

/// The lines of a text, with line feeds between them, are the text. None has a line feed.
///
/// Mistakes: a line feed at the end begins no line, `split_without_last` (`is_whole`, `would_lose_feed`); a line ends at
/// a carriage return alone, `split_at_returns` (`has_no_feed`, `would_have_feed`).
/// Witness: `is_whole`, `has_no_feed` of Mistakes.
pub fn lines_make_up_the_text()
    ensures whole { MakeUpTheText }
    ensures apart { HaveNoFeed }
{}

/// Words are what is between spaces. None is empty.
///
/// Mistake: each space ends a word, also an empty one, `words_at_spaces` (`are_two`, `would_be_empty`).
/// Witness: `are_two` of Mistakes.
pub fn words_stand_between_spaces()
    ensures front { IgnoreSpaces }
    ensures first { EndAtSpaces }
    ensures alone { EndAtTheEnd }
{}
