//! The words of the command line, read as options.
ghost use Rattle.std.specs.Prelude.{◌≡◌, ◌≢◌, map, IfOk, MatchResult};
ghost use Rattle.clap.specs.Words.{app_of, found_of, kind_of, rows_of};
ghost use Rattle.clap.specs.declared.error.kind.ErrorKind.TheVariants as kind;
ghost use Rattle.command_words.specs.Invocations.{Parses, command, option_values, values_in};
ghost use Rattle.command_words.specs.InvocationsInside.{values_of};

use clap::{Arg, ArgAction, ArgMatches, Command, Error};
use mpm_base::{NoMemory, Words};
use std::alloc::{AllocError, Global};

/// The values that the words give to the options of the command, as texts.
#[derive(Clone, Copy)]
pub struct Options<'a> {
    /// FILE of `--script FILE`.
    pub script: Option<&'a str>,
    /// N of `--load N`.
    pub load: Option<&'a str>,
    /// FILE of `-f FILE`.
    pub file: Option<&'a str>,
    /// `-t` is there.
    pub test: bool,
    /// WORD of `-k WORD`.
    pub word: Option<&'a str>,
}

/// The words, as texts.
pub fn texts_of(alloc: Global, words: &Words) -> Result<Vec<&str>, NoMemory>
    ensures { IfOk result (λ texts. map (λ text. text.now) texts.items ≡ words.now) }
{
    let mut texts = Vec::new(alloc);
    for place in 0..words.len() {
        if let Some(word) = words.get(place) {
            texts.push(word)?;
        }
    }
    Ok(texts)
}

/// Reads the words as options of the command. An error that isn't for want of memory says that they can't be parsed so.
pub fn read_options<'a>(alloc: Global, words: &'a [&'a str]) -> Result<Options<'a>, Error>
    ensures values { IfOk result
        (λ options. values_of options ≡ option_values (map (λ word. word.now) words.entry.now)) }
    ensures parsed { MatchResult result
        (λ _. Parses (map (λ word. word.now) words.entry.now))
        (λ e. kind_of e ≢ kind.OutOfMemory → ¬ (Parses (map (λ word. word.now) words.entry.now))) }
{
    let command = command_line(alloc)?;
    let matches = command.try_get_matches_from(words)?;
    Ok(options_of(&matches))
}

/// The command of the program, without its help and version flags. The words don't begin with the program's name.
fn command_line<'a>(alloc: Global) -> Result<Command<'a>, AllocError>
    ensures { IfOk result (λ built. app_of built ≡ command) }
{
    Command::new(alloc, "event_server")
        .no_binary_name(true)
        .disable_help_flag(true)
        .disable_version_flag(true)
        .arg(Arg::new(alloc, "script").long("script"))?
        .arg(Arg::new(alloc, "load").long("load"))?
        .arg(Arg::new(alloc, "file").short('f'))?
        .arg(
            Arg::new(alloc, "test")
                .short('t')
                .action(ArgAction::SetTrue),
        )?
        .arg(Arg::new(alloc, "word").short('k'))
}

/// The options that were found.
fn options_of<'a>(matches: &ArgMatches<'a>) -> Options<'a>
    ensures { values_of result ≡ values_in (rows_of (found_of matches.now)) }
{
    Options {
        script: matches.get_str("script"),
        load: matches.get_str("load"),
        file: matches.get_str("file"),
        test: matches.get_str("test") == Some("true"),
        word: matches.get_str("word"),
    }
}
