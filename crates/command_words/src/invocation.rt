//! The forms of the command line.
ghost use Rattle.std.specs.Prelude.{◌≡◌, ◌≢◌, IfOk, IfErr, MatchResult};
ghost use Rattle.std.specs.String.{string_bytes};
ghost use Rattle.mpm_base.specs.CommandWord.{command_word};
ghost use Rattle.mpm_base.specs.declared.script_line.CommandWord.{CommandWord};
ghost use Rattle.command_words.specs.Invocations.{Form, IsForm, IsInvocation, IsNoInvocation, held_form};
ghost use Rattle.command_words.specs.InvocationsInside.{IsLoadOf, IsNoLoad, IsSendOf, values_of};
ghost use Rattle.command_words.specs.declared.invocation.NoInvocation.TheVariants as no;

use crate::options::{Options, read_options, texts_of};
use clap::Error;
use clap::error::ErrorKind;
use mpm_base::{CommandWord, NoMemory, Words, number_in_digits};
use restart_control::read_command;
use std::alloc::Global;

/// The most connections of a load.
const MOST_LOAD: u64 = 100_000;

/// A form of the command line.
#[derive(Debug, Drop)]
pub enum Invocation {
    /// `--script FILE`: the script of that name is played.
    Script(String),
    /// `--load N`: the script of a load of so many connections is played, from 1 to 100,000.
    Load(u32),
    /// `-f FILE`: the site is served by the configuration of that name.
    Serve(String),
    /// `-t -f FILE`: the configuration of that name is tested.
    Test(String),
    /// `-k WORD -f FILE`: the server of the configuration of that name is sent the word.
    Send(CommandWord, String),
}

/// Why there is no form.
#[derive(Clone, Copy, Debug, PartialEq, Eq)]
pub enum NoInvocation {
    /// The words have none of the forms.
    Unknown,
    /// Memory was wanted and not found.
    NoMemory,
}

impl From<NoMemory> for NoInvocation {
    ghost use Rattle.std.specs.Prelude.{◌≡◌};
    ghost use Rattle.command_words.specs.declared.invocation.NoInvocation.TheVariants as no;

    ghost from_gives = { λ _ e. e ≡ no.NoMemory };

    fn from(_: NoMemory) -> NoInvocation {
        NoInvocation::NoMemory
    }
}

impl From<Error> for NoInvocation {
    ghost use Rattle.std.specs.Prelude.{◌≡◌, ◌↔◌};
    ghost use Rattle.clap.specs.Words.{kind_of};
    ghost use Rattle.clap.specs.declared.error.kind.ErrorKind.TheVariants as kind;
    ghost use Rattle.command_words.specs.declared.invocation.NoInvocation.TheVariants as no;

    ghost from_gives = { λ error e. (e ≡ no.NoMemory) ↔ (kind_of error ≡ kind.OutOfMemory) };

    fn from(error: Error) -> NoInvocation {
        match error.kind() {
            ErrorKind::OutOfMemory => NoInvocation::NoMemory,
            _ => NoInvocation::Unknown,
        }
    }
}

/// The form that the words have. Unknown where they have none.
pub fn invocation_of(alloc: Global, words: &Words) -> Result<Invocation, NoInvocation>
    ensures form { IfOk result (IsInvocation words.now) }
    ensures none { IfErr result (λ why. why ≡ no.Unknown → IsNoInvocation words.now) }
{
    let texts = texts_of(alloc, words)?;
    let options = read_options(alloc, texts.as_slice())?;
    form_of_options(alloc, options)
}

/// The form that the options have. Unknown where they have none.
fn form_of_options(alloc: Global, options: Options<'_>) -> Result<Invocation, NoInvocation>
    ensures form { IfOk result
        (λ invocation. IsForm (values_of options.entry) (held_form invocation)) }
    ensures none { IfErr result (λ why. why ≡ no.Unknown
        → (form : Form) → ¬ (IsForm (values_of options.entry) form)) }
{
    match (
        options.script,
        options.load,
        options.file,
        options.test,
        options.word,
    ) {
        (Some(name), None, None, false, None) => Ok(Invocation::Script(copy_of(alloc, name)?)),
        (None, Some(number), None, false, None) => load_of(number),
        (None, None, Some(name), false, None) => Ok(Invocation::Serve(copy_of(alloc, name)?)),
        (None, None, Some(name), true, None) => Ok(Invocation::Test(copy_of(alloc, name)?)),
        (None, None, Some(name), false, Some(word)) => send_of(alloc, word, name),
        _ => Err(NoInvocation::Unknown),
    }
}

/// The load of so many connections, from 1 to 100,000. Unknown where the text isn't 1 to 6 decimal digits, or is another number.
fn load_of(text: &str) -> Result<Invocation, NoInvocation>
    ensures { MatchResult result (IsLoadOf text.now)
        (λ why. (why ≡ no.Unknown) × IsNoLoad text.now) }
{
    match number_in_digits(text.as_bytes(), 6) {
        Some(number) if 1 <= number && number <= MOST_LOAD => Ok(Invocation::Load(number as u32)),
        _ => Err(NoInvocation::Unknown),
    }
}

/// The word is sent to the server of the configuration of that name. Unknown where it is no command.
fn send_of(alloc: Global, word: &str, name: &str) -> Result<Invocation, NoInvocation>
    ensures form { IfOk result (IsSendOf word.now name.now) }
    ensures none { IfErr result (λ why. why ≡ no.Unknown
        → (command : CommandWord) → word.now ≢ command_word command) }
{
    match read_command(word) {
        Ok(command) => Ok(Invocation::Send(command, copy_of(alloc, name)?)),
        Err(_) => Err(NoInvocation::Unknown),
    }
}

/// The text, of its own.
fn copy_of(alloc: Global, text: &str) -> Result<String, NoMemory>
    ensures { IfOk result (λ copy. string_bytes copy ≡ text.now) }
{
    Ok(String::from_str(alloc, text)?)
}
