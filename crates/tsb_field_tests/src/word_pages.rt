//! Tests of the pages that words ask for, and of right words that are near wrong ones.
use tsb_words::near::{field_near, hint, live_near};
use tsb_words::pages::{field_page, live_page};
use tsb_words::wrong::{field_wrong, wrong_line};

/// Whether a page begins so.
fn begins(page: Option<&[u8]>, begin: &[u8]) -> bool {
    match page {
        Some(text) => text.starts_with(begin),
        None => false,
    }
}

/// Whether versions and help are given.
fn pages_are_told() -> bool {
    begins(live_page(&["tsb_live", "--version"]), b"tsb_live ")
        && begins(live_page(&["tsb_live", "--help"]), b"usage: tsb_live ")
        && begins(field_page(&["tsb_field", "--version"]), b"tsb_field ")
        && begins(
            field_page(&["tsb_field", "--help"]),
            b"usage: tsb_field COMMAND",
        )
}

/// Whether the help of each command is given.
fn commands_are_told() -> bool {
    begins(
        field_page(&["tsb_field", "log", "--help"]),
        b"usage: tsb_field log ",
    ) && begins(
        field_page(&["tsb_field", "record", "--help"]),
        b"usage: tsb_field record ",
    ) && begins(
        field_page(&["tsb_field", "events", "--help"]),
        b"usage: tsb_field events ",
    ) && begins(
        field_page(&["tsb_field", "diagram", "--help"]),
        b"usage: tsb_field diagram ",
    ) && begins(
        field_page(&["tsb_field", "review", "--help"]),
        b"usage: tsb_field review ",
    ) && begins(
        field_page(&["tsb_field", "card", "--help"]),
        b"usage: tsb_field card ",
    )
}

/// Whether other words ask for no page.
fn others_are_none() -> bool {
    live_page(&["tsb_live"]).is_none()
        && live_page(&["tsb_live", "a.json", "--help"]).is_none()
        && live_page(&["tsb_live", "--help", "a.json"]).is_none()
        && field_page(&["tsb_field"]).is_none()
        && field_page(&["tsb_field", "log", "--version"]).is_none()
        && field_page(&["tsb_field", "what", "--help"]).is_none()
        && field_page(&["tsb_field", "log", "--help", "--count"]).is_none()
}

#[test]
fn words_ask_for_pages(rt: HostRuntime) {
    assert!(rt; pages_are_told() && commands_are_told() && others_are_none());
}

/// Whether a right word that was found is this one.
fn is_word(found: Option<&str>, right: &str) -> bool {
    match found {
        Some(word) => word == right,
        None => false,
    }
}

/// Whether the right word is found for a slip.
fn slips_are_found() -> bool {
    is_word(live_near(&["tsb_live", "a.json", "--stict"]), "--strict")
        && is_word(field_near(&["tsb_field", "daigram"]), "diagram")
        && is_word(field_near(&["tsb_field", "log", "--zones=Z"]), "--zone")
        && is_word(field_near(&["tsb_field", "crad"]), "card")
        && is_word(
            field_near(&["tsb_field", "card", "--agianst=a"]),
            "--against",
        )
        && is_word(
            field_near(&["tsb_field", "events", "--fron", "x"]),
            "--from",
        )
}

/// Whether nothing is found for right words, for words far from any, and after `--`.
fn others_are_not_near() -> bool {
    field_near(&["tsb_field", "events", "--title"]).is_none()
        && field_near(&["tsb_field", "log", "--count", "--", "--devise"]).is_none()
        && field_near(&["tsb_field", "log", "--count"]).is_none()
}

#[test]
fn slips_are_told(rt: HostRuntime) {
    let line = b"did you mean --zone? --help lists the words\n";
    assert!(rt; slips_are_found() && others_are_not_near());
    assert!(rt; hint("--zone").as_bytes() == line.as_slice());
}

/// Whether this line is printed of these words.
fn is_wrong(words: &[&str], line: &[u8]) -> bool {
    match field_wrong(words) {
        Some(wrong) => wrong_line(wrong).as_bytes() == line,
        None => false,
    }
}

/// Whether the first wrong word from the left is named, with what may be in its place.
fn words_are_named() -> bool {
    is_wrong(
        &["tsb_field", "frob"],
        b"there is no command \"frob\": log, record, events, diagram, review, schedule, worksheet or card\n",
    ) && is_wrong(
        &["tsb_field", "review", "--zone=Z", "--zone"],
        b"--zone: the command has no such option; --help after it lists all\n",
    ) && is_wrong(
        &["tsb_field", "log", "--zone", "EST", "--count=1"],
        b"--zone \"EST\": a zone is an offset such as -07:00, or Z\n",
    ) && is_wrong(
        &["tsb_field", "log", "--time-form=year-frist"],
        b"--time-form \"year-frist\": did you mean year-first?\n",
    ) && is_wrong(
        &["tsb_field", "events", "--device", "a\nb", "--device", "7"],
        b"--device comes twice\n",
    )
}

/// Whether what is missing is named where no word is wrong.
fn lacks_are_named() -> bool {
    is_wrong(
        &["tsb_field", "log", "--vehicle", "7=16", "--", "--from"],
        b"--from has to be given: a time is YYYY-MM-DD HH:MM:SS, such as \"2026-11-22 07:00:00\"\n",
    ) && is_wrong(
        &["tsb_field", "review", "a.json", "b.json"],
        b"review names one file, PLAN\n",
    ) && is_wrong(
        &["tsb_field", "card", "--against", "a.txt"],
        b"card names one file, PLAN\n",
    ) && is_wrong(
        &["tsb_field", "card", "a.json", "--against"],
        b"--against has no value (one that begins with a hyphen comes after =): a name or a text has to follow\n",
    ) && field_wrong(&["tsb_field"]).is_none()
        && field_wrong(&["tsb_field", "log", "--count", "--help"]).is_none()
}

#[test]
fn wrong_words_are_named(rt: HostRuntime) {
    assert!(rt; words_are_named() && lacks_are_named());
}
