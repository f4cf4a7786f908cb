//! The options and the file of an analysis, read by `clap`.
ghost use Rattle.std.specs.Prelude.{◌≡◌, IfOk, Some, false, map, option_map};
ghost use Rattle.clap.specs.Words.{app_of, new_rule, rule_of};
ghost use Rattle.clap.specs.declared.builder.action.ArgAction.TheVariants.{Set, SetTrue};
ghost use Rattle.command_words.specs.Cli.{cli, declared};
ghost use Rattle.command_words.specs.Items.{file, given_of};
ghost use Rattle.command_words.specs.Texts.{AreText};
ghost use Rattle.command_words.specs.View.{given_view};

use clap::error::ErrorKind;
use clap::{Arg, ArgAction, Command};
use memory::NoMemory;
use std::alloc::{AllocError, Global};

/// What the words give, as text.
#[derive(Clone, Copy)]
pub struct GivenWords<'a> {
    pub delay: Option<&'a str>,
    pub descend: Option<&'a str>,
    pub full: bool,
    pub domain: Option<&'a str>,
    pub file: &'a str,
}

/// What the words give, and `None` exactly where they aren't of the form.
pub fn given_words<'a>(
    alloc: Global,
    words: &'a [&'a str],
) -> Result<Option<GivenWords<'a>>, NoMemory>
    requires { AreText (map (λ s. s.now) words.now) }
    ensures { IfOk result (λ r. option_map given_view r ≡ given_of (map (λ s. s.now) words.now)) }
{
    let parser = parser(alloc)?;
    let matches = match parser.try_get_matches_from(words) {
        Ok(matches) => matches,
        Err(error) => {
            return match error.kind() {
                ErrorKind::OutOfMemory => Err(NoMemory),
                _ => Ok(None),
            };
        }
    };
    match matches.get_str("file") {
        None => Ok(None),
        Some(file) => Ok(Some(GivenWords {
            delay: matches.get_str("delay"),
            descend: matches.get_str("descend"),
            full: matches.get_flag("full"),
            domain: matches.get_str("domain"),
            file,
        })),
    }
}

/// The options and FILE, without help or version.
fn parser<'a>(alloc: Global) -> Result<Command<'a>, AllocError>
    ensures { IfOk result (λ c. app_of c ≡ cli) }
{
    let plain = Command::new(alloc, "interproc")
        .no_binary_name(true)
        .disable_help_flag(true);
    let delay = plain.arg(valued(alloc, "delay"))?;
    let descend = delay.arg(valued(alloc, "descend"))?;
    let full = descend.arg(flag(alloc, "full"))?;
    let domain = full.arg(valued(alloc, "domain"))?;
    let whole = domain.arg(file_word(alloc))?;
    Ok(whole)
}

/// An option with a value.
fn valued<'a>(alloc: Global, name: &'a str) -> Arg<'a>
    ensures rule { rule_of result ≡ record (new_rule name.entry.now) { long = Some name.entry.now; action = Some Set } }
    ensures own { result.global ≡ false }
{
    Arg::new(alloc, name).long(name).action(ArgAction::Set)
}

/// An option without one.
fn flag<'a>(alloc: Global, name: &'a str) -> Arg<'a>
    ensures rule { rule_of result ≡ record (new_rule name.entry.now) { long = Some name.entry.now; action = Some SetTrue } }
    ensures own { result.global ≡ false }
{
    Arg::new(alloc, name).long(name).action(ArgAction::SetTrue)
}

/// The FILE, which must come.
fn file_word<'a>(alloc: Global) -> Arg<'a>
    ensures rule { rule_of result ≡ declared file }
    ensures own { result.global ≡ false }
{
    Arg::new(alloc, "file").required(true)
}
