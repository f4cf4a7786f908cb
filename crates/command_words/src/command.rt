//! Commands, and the words that ask for them.
ghost use Rattle.std.specs.Prelude.{◌≡◌, ◌↔◌, IfOk, IsTrue, map, option_map, true};
ghost use Rattle.command_words.specs.Command.{analyse_of, asked_of_texts, bench_of, is_file_word, replay_of, rounds_or};
ghost use Rattle.command_words.specs.Texts.{AreText};
ghost use Rattle.command_words.specs.View.{Reads, asked_by};
ghost use Rattle.command_words.specs.declared.command.WordsFault.TheVariants.{NoMemory};

use crate::cli::given_words;
use crate::domain_name::{DomainName, domain_given};
use crate::number::{program, rounds};
use crate::texts::as_texts;
use memory::NoMemory;
use std::alloc::Global;
use thiserror::Error;

/// What a command line asks for.
#[derive(Debug, Drop, PartialEq, Eq)]
pub enum Command {
    /// The analysis of a program in a domain and its report. A cut point joins `delay` times before it widens; `descend`
    /// rounds narrow.
    Analyse {
        delay: u32,
        descend: u32,
        full: bool,
        domain: DomainName,
        file: String,
    },
    /// The analysis of a generated program, and its figures.
    Bench {
        number: u32,
    },
    /// One run of a program, by its choices.
    Replay {
        file: String,
        choices: String,
    },
}

/// Why words are no command.
#[derive(Debug, Drop, PartialEq, Eq, Error)]
pub enum WordsFault {
    /// They are of no form.
    #[error("usage")]
    Usage,
    #[error("out of memory")]
    NoMemory,
}

impl From<NoMemory> for WordsFault {
    ghost from_gives = { λ _ e. e ≡ NoMemory };

    fn from(_wanting: NoMemory) -> WordsFault {
        WordsFault::NoMemory
    }
}

/// The command that the words ask for. The words are those after the program's name.
pub fn read_words(alloc: Global, words: &[Vec<u8>]) -> Result<Command, WordsFault>
    ensures { Reads (map (λ word. word.items) words.now) result }
{
    let Some(texts) = as_texts(alloc, words)? else {
        return Err(WordsFault::Usage);
    };
    match read_texts(alloc, texts.as_slice())? {
        Some(command) => Ok(command),
        None => Err(WordsFault::Usage),
    }
}

/// The command that the words ask for, and `None` exactly where they are of no form; so the next three.
fn read_texts(alloc: Global, words: &[&str]) -> Result<Option<Command>, NoMemory>
    requires { AreText (map (λ s. s.now) words.now) }
    ensures { IfOk result (λ r. option_map asked_by r ≡ asked_of_texts (map (λ s. s.now) words.now)) }
{
    let Some((first, rest)) = words.split_first() else {
        return analyse(alloc, words);
    };
    match *first {
        "bench" => Ok(bench(rest)),
        "replay" => replay(alloc, rest),
        _ => analyse(alloc, words),
    }
}

fn analyse(alloc: Global, words: &[&str]) -> Result<Option<Command>, NoMemory>
    requires { AreText (map (λ s. s.now) words.now) }
    ensures { IfOk result (λ r. option_map asked_by r ≡ analyse_of (map (λ s. s.now) words.now)) }
{
    let Some(given) = given_words(alloc, words)? else {
        return Ok(None);
    };
    let Some(delay) = rounds_given(given.delay, 1) else {
        return Ok(None);
    };
    let Some(descend) = rounds_given(given.descend, 2) else {
        return Ok(None);
    };
    let Some(domain) = domain_given(given.domain) else {
        return Ok(None);
    };
    Ok(Some(Command::Analyse {
        delay,
        descend,
        full: given.full,
        domain,
        file: String::from_str(alloc, given.file)?,
    }))
}

/// An option's number, or its default where it isn't given.
fn rounds_given(word: Option<&str>, default: u32) -> Option<u32>
    ensures { result ≡ rounds_or default (option_map (λ s. s.now) word.entry) }
{
    match word {
        Some(word) => rounds(word),
        None => Some(default),
    }
}

fn bench(words: &[&str]) -> Option<Command>
    ensures { option_map asked_by result ≡ bench_of (map (λ s. s.now) words.now) }
{
    if words.len() != 1 {
        return None;
    }
    match program(words[0]) {
        Some(number) => Some(Command::Bench { number }),
        None => None,
    }
}

fn replay(alloc: Global, words: &[&str]) -> Result<Option<Command>, NoMemory>
    ensures { IfOk result (λ r. option_map asked_by r ≡ replay_of (map (λ s. s.now) words.now)) }
{
    if words.len() != 2 {
        return Ok(None);
    }
    let (file, choices) = (words[0], words[1]);
    if !is_file(file) {
        return Ok(None);
    }
    if !is_file(choices) {
        return Ok(None);
    }
    Ok(Some(Command::Replay {
        file: String::from_str(alloc, file)?,
        choices: String::from_str(alloc, choices)?,
    }))
}

/// Whether a word may name a file: it is `-` or doesn't begin with `-`.
fn is_file(word: &str) -> bool
    ensures { result ≡ is_file_word word.now }
{
    word == "-" || !word.starts_with('-')
}
