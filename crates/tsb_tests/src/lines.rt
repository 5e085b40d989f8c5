//! Lines of texts, words of lines, and numbers.

use tsb_lines::{
    KeptLine, cut_at_feed, is_skipped, laws, next_line, next_word, number, without_return,
};

/// Whether the text has these lines, one after the other, and no more.
fn has_lines(text: &[u8], wanted: &[&[u8]]) -> bool {
    let mut left = Some(text);
    for line in wanted {
        let Some(text) = left else {
            return false;
        };
        let (found, rest) = next_line(text);
        if found != *line {
            return false;
        }
        left = rest;
    }
    left.is_none()
}

#[test]
fn lines_end_at_line_feeds(rt: HostRuntime) {
    let wanted: [&[u8]; 4] = [b"one", b"two\r", b"", b"last\r"];
    assert!(rt; has_lines(b"one\r\ntwo\r\r\n\nlast\r", &wanted));
    assert!(rt; without_return(b"last\r") == b"last".as_slice());
    laws::lines_make_up_the_text();
}

/// Whether the first line feed is between these.
fn is_cut(bytes: &[u8], before: &[u8], behind: &[u8]) -> bool {
    match cut_at_feed(bytes) {
        None => false,
        Some((first, rest)) => first == before && rest == behind,
    }
}

#[test]
fn bytes_are_cut_at_the_first_line_feed(rt: HostRuntime) {
    assert!(rt; is_cut(b"one\r\ntwo\nlast", b"one\r", b"two\nlast"));
    assert!(rt; is_cut(b"\n", b"", b""));
    assert!(rt; cut_at_feed(b"last\r").is_none());
}

/// Whether the line would be the first of these if it were the last of a text, and is the second where a line feed ends
/// it.
fn is_kept(line: &KeptLine<4>, last: &[u8], ended: &[u8]) -> bool {
    line.last() == last && line.ended() == ended
}

fn push(line: &mut KeptLine<4>, bytes: &[u8]) {
    for byte in bytes {
        if *byte != b'\n' {
            line.push(*byte);
        }
    }
}

/// Whether an empty line is kept up to its end, and can be cleared.
fn is_kept_until_it_ends(line: &mut KeptLine<4>) -> bool {
    let is_empty = is_kept(line, b"", b"");
    push(line, b"ab\r");
    let is_short = is_kept(line, b"ab\r", b"ab");
    line.extend(b"\rc");
    let is_long = is_kept(line, b"ab\r\r", b"ab\r");
    line.clear();
    push(line, b"d");
    is_empty && is_short && is_long && is_kept(line, b"d", b"d")
}

#[test]
fn a_line_is_kept_until_it_ends(rt: HostRuntime) {
    let mut line: KeptLine<4> = KeptLine::new();
    assert!(rt; is_kept_until_it_ends(&mut line));
}

fn skips(line: &[u8]) -> bool {
    is_skipped(line)
}

#[test]
fn blanks_and_comments_are_skipped(rt: HostRuntime) {
    assert!(rt; skips(b"") && skips(b"   ") && skips(b"# step 1"));
    assert!(rt; !skips(b"\t") && !skips(b" # no comment"));
}

/// Whether the line has these words, one after the other, and no more.
fn has_words(line: &[u8], wanted: &[&[u8]]) -> bool {
    let mut left = line;
    for word in wanted {
        let Some((found, rest)) = next_word(left) else {
            return false;
        };
        if found != *word {
            return false;
        }
        left = rest;
    }
    next_word(left).is_none()
}

fn spells(word: &[u8], value: Option<u32>) -> bool {
    number(word) == value
}

/// Whether words that spell no number are refused, and those that do are read.
fn words_are_told_apart() -> bool {
    spells(b"0012", Some(12))
        && spells(b"4294967295", Some(4_294_967_295))
        && spells(b"4294967296", None)
        && spells(b"00000000001", None)
        && spells(b"", None)
        && spells(b"1x", None)
}

#[test]
fn words_spell_numbers(rt: HostRuntime) {
    assert!(rt; has_words(b"  step   0012 ", &[b"step".as_slice(), b"0012"]));
    assert!(rt; words_are_told_apart());
    laws::words_stand_between_spaces();
}
