//! Lines of a text.
ghost use Rattle.std.specs.Prelude.{◌≡◌, ◌∷◌, ◌++◌, [], MatchOption};
ghost use Rattle.tsb_lines.specs.Lines.{HasNoFeed, is_blank, is_comment, is_skipped, lines_of, split, without_return};

use memchr::memchr;

/// The first line of a text, without its end, and what follows its line feed, or `None` where the text has no further
/// line. A line feed ends a line, with one carriage return before it, if there is one; the last line, which no line
/// feed ends, keeps a carriage return.
pub fn next_line(text: &[u8]) -> (&[u8], Option<&[u8]>)
    ensures { MatchOption result.1 (lines_of text.now ≡ result.0.now ∷ [])
        (λ rest. lines_of text.now ≡ result.0.now ∷ lines_of rest.now) }
{
    match memchr(b'\n', text) {
        None => (text, None),
        Some(end) => (without_return(&text[..end]), Some(&text[end + 1..])),
    }
}

/// What stands before the first line feed of some bytes, and what follows it, or `None` where they have no line feed.
pub fn cut_at_feed(bytes: &[u8]) -> Option<(&[u8], &[u8])>
    ensures { MatchOption result (HasNoFeed bytes.now)
        (λ cut. HasNoFeed cut.0.now × (bytes.now ≡ cut.0.now ++ 10 ∷ cut.1.now)) }
{
    match memchr(b'\n', bytes) {
        None => None,
        Some(end) => Some((&bytes[..end], &bytes[end + 1..])),
    }
}

/// The line without a carriage return at its end: one at most is taken off.
pub fn without_return(line: &[u8]) -> &[u8]
    ensures { result.now ≡ without_return line.now }
{
    if line.is_empty() {
        return line;
    }
    if line[line.len() - 1] == b'\r' {
        return &line[..line.len() - 1];
    }
    line
}

/// Whether readers skip the line: it is empty or of spaces alone, or it begins with `#`. A tab is not a space.
pub fn is_skipped(line: &[u8]) -> bool
    ensures { result ≡ is_skipped line.now }
{
    blank(line) || comment(line)
}

fn blank(line: &[u8]) -> bool
    ensures { result ≡ is_blank line.now }
{
    for byte in line {
        if *byte != b' ' {
            return false;
        }
    }
    true
}

fn comment(line: &[u8]) -> bool
    ensures { result ≡ is_comment line.now }
{
    match line {
        [first, ..] => *first == b'#',
        _ => false,
    }
}
