//! What holds of the lines that are written, and of rows in other forms, each law the contract of a function that does
//! nothing.
ghost use Rattle.tsb_event_text.specs.Events.{AreReadAgain};
ghost use Rattle.tsb_event_text.specs.Laws.{AreOneMoment, ArePartedAgain, AreReadAlike, BeginsAsUsual, FormsAreNamed, OwnClocksStay};

/// The line of an event is read as that event. It is read by the usual columns, without its feed, where
/// `can_be_written` holds of its device; readers of logs neither skip it nor find it too long, as it has at most 1,000
/// bytes.
///
/// Mistakes: those of LineMistakes: a device with a comma and no quotes, one with a quote inside quotes, and one that
/// begins with `#` and no quotes.
/// Witness: `named` of LineExamples.
pub fn lines_are_read_again()
    ensures { AreReadAgain }
{}

/// Fields that commas, semicolons or tabs part are read as these fields, where none has the mark or begins with a quote.
///
/// Mistakes: `mark_parts` and `quote_opens` of FormMistakes: a field with the mark, and one that begins with a quote.
/// Witness: `semicolons_free` of FormExamples.
pub fn fields_are_parted_again()
    ensures { ArePartedAgain }
{}

/// What a row says does not hang on the separator that parts it, be it a plain row or one as exports have it.
///
/// Mistake: `header_says` of FormMistakes: rows that are read by the header's columns with commas, whatever it has.
/// Witness: `semicolons_free` of FormExamples, read in `semicolons_say`.
pub fn separators_say_the_same()
    ensures { AreReadAlike }
{}

/// A text without a header that begins with the line of an event has the usual columns, parted by commas.
///
/// Mistake: `two_fields` of FormMistakes: of a line with two fields no separator is known.
/// Witness: `begins_so` of FormExamples.
pub fn first_lines_are_usual()
    ensures { BeginsAsUsual }
{}

/// One instant is one moment on the clock of the zone that is asked for, whichever zone's clock tells it.
///
/// Mistake: `offset_added` of FormMistakes: the offset is added where it has to be taken away.
/// Witness: `one_instant` of FormExamples.
pub fn instants_are_one_moment()
    ensures { AreOneMoment }
{}

/// A clock of the zone that is asked for counts as it shows.
///
/// Mistake: `offset_added` of FormMistakes.
/// Witness: any zone and any time; `one_instant` of FormExamples has some.
pub fn own_clocks_stay()
    ensures { OwnClocksStay }
{}

/// The word of a form of times names it.
///
/// Mistake: `one_word` of FormMistakes: two forms have one word.
/// Witness: each form.
pub fn forms_are_named()
    ensures { FormsAreNamed }
{}
