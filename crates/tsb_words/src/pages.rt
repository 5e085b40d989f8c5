//! Words that ask for a page: for the version of a program, or for how it or a subcommand is used.
ghost use Rattle.std.specs.Prelude.{◌≡◌, map, option_map};
ghost use Rattle.tsb_words.specs.Pages.{field_page, general_page, help_page, live_page, subcommand_page};

mod texts;

use std::convert::AsStr;
use texts::{
    CARD_HELP, DIAGRAM_HELP, EVENTS_HELP, FIELD_HELP, FIELD_VERSION, LIVE_HELP, LIVE_VERSION,
    LOG_HELP, RECORD_HELP, REVIEW_HELP, SCHEDULE_HELP, WORKSHEET_HELP,
};

/// The page that words of `tsb_live` ask for, by `--version` or `--help` alone. The first word is the program's name.
pub fn live_page<S: AsStr>(words: &[S]) -> Option<&'static [u8]>
    ensures { option_map (λ page. page.now) result ≡ live_page (map S.text words.now) }
{
    let (_name, rest) = words.split_first()?;
    let (word, more) = rest.split_first()?;
    if more.is_empty() {
        general_page(word.as_str(), LIVE_VERSION, LIVE_HELP)
    } else {
        None
    }
}

/// The page that words of `tsb_field` ask for, by `--version` or `--help` alone, or by `--help` after the name of a
/// subcommand. The first word is the program's name.
pub fn field_page<S: AsStr>(words: &[S]) -> Option<&'static [u8]>
    ensures { option_map (λ page. page.now) result ≡ field_page (map S.text words.now) }
{
    let (_name, rest) = words.split_first()?;
    let (word, more) = rest.split_first()?;
    match more.split_first() {
        None => general_page(word.as_str(), FIELD_VERSION, FIELD_HELP),
        Some((option, others)) => {
            if others.is_empty() {
                help_page(word.as_str(), option.as_str())
            } else {
                None
            }
        }
    }
}

/// The version of a program, or how it is used, where this word asks for one of them.
fn general_page(word: &str, version: &'static [u8], help: &'static [u8]) -> Option<&'static [u8]>
    ensures { option_map (λ page. page.now) result ≡ general_page version.now help.now word.now }
{
    if word == "--version" {
        Some(version)
    } else if word == "--help" {
        Some(help)
    } else {
        None
    }
}

/// How the subcommand of this name is used, where this option asks for it.
fn help_page(name: &str, option: &str) -> Option<&'static [u8]>
    ensures { option_map (λ page. page.now) result ≡ help_page name.now option.now }
{
    if option == "--help" {
        subcommand_page(name)
    } else {
        None
    }
}

/// How the subcommand of this name is used, if there is one.
fn subcommand_page(name: &str) -> Option<&'static [u8]>
    ensures { option_map (λ page. page.now) result ≡ subcommand_page name.now }
{
    if name == "log" {
        Some(LOG_HELP)
    } else if name == "record" {
        Some(RECORD_HELP)
    } else if name == "events" {
        Some(EVENTS_HELP)
    } else if name == "diagram" {
        Some(DIAGRAM_HELP)
    } else if name == "review" {
        Some(REVIEW_HELP)
    } else if name == "schedule" {
        Some(SCHEDULE_HELP)
    } else if name == "worksheet" {
        Some(WORKSHEET_HELP)
    } else if name == "card" {
        Some(CARD_HELP)
    } else {
        None
    }
}
