//! Words of a line, and the numbers that they spell.
ghost use Rattle.std.specs.Prelude.{◌≡◌, ◌∷◌, [], MatchOption};
ghost use Rattle.tsb_lines.specs.Words.{number_of, words_of};

/// The first word of a line and what follows it, or `None` where the line has no word. Words are the runs of bytes that
/// are not spaces.
pub fn next_word(line: &[u8]) -> Option<(&[u8], &[u8])>
    ensures { MatchOption result (words_of line.now ≡ [])
        (λ found. words_of line.now ≡ found.0.now ∷ words_of found.1.now) }
{
    let mut start = 0;
    while start < line.len() && line[start] == b' ' {
        start += 1;
    }
    if start == line.len() {
        return None;
    }
    let mut end = start;
    while end < line.len() && line[end] != b' ' {
        end += 1;
    }
    Some((&line[start..end], &line[end..]))
}

/// The number that a word spells: 1 to 10 decimal digits, and at most 4,294,967,295. Leading zeros count as
/// digits. `None` for any other word.
pub fn number(word: &[u8]) -> Option<u32>
    ensures { result ≡ number_of word.now }
{
    if word.is_empty() || word.len() > 10 {
        return None;
    }
    let mut number: u64 = 0;
    for byte in word {
        if *byte < b'0' || *byte > b'9' {
            return None;
        }
        number = number * 10 + (*byte - b'0') as u64;
    }
    if number > 4_294_967_295 {
        return None;
    }
    Some(number as u32)
}
