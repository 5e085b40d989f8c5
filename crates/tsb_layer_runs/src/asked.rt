//! The words of the command line.

use tsb_lines::number;

/// How layers are timed.
#[derive(Clone, Copy, PartialEq, Eq)]
pub struct Asked {
    /// How many rounds.
    pub rounds: u32,
    /// How often each tick repeats, where those that change nothing are passed over.
    pub times: Option<u32>,
}

impl Asked {
    /// What the words ask for: `time ROUNDS TIMES`, after the program's name. One round if they give no number; `None`
    /// if there is no word.
    pub fn read(words: &[String]) -> Option<Asked> {
        match words.get(1) {
            Some(word) if word.as_str() == "time" => Some(Asked {
                rounds: number_at(words, 2).unwrap_or(1),
                times: number_at(words, 3),
            }),
            _ => None,
        }
    }
}

fn number_at(words: &[String], place: usize) -> Option<u32> {
    number(words.get(place)?.as_bytes())
}
