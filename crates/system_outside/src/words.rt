//! The words of the command line.
//! Why it is so stands in docs/DECISIONS.md: 83, A word that isn't UTF-8.
ghost use Rattle.std.specs.Prelude.{◌≡◌, ◌≢◌, [], drop, map, IfOk, IfErr, MatchResult};
ghost use Rattle.std.specs.String.{string_bytes};
ghost use Rattle.std.specs.Vec.Iter.{into_iter_items};
ghost use Rattle.std.specs.IoError.{error_kind};
ghost use Rattle.std.specs.declared.io.ErrorKind.TheVariants as kind;

use mpm_base::{NoMemory, Words};
use std::alloc::Global;
use std::env::Args;
use std::io::{self, ErrorKind};

/// The words behind the program's name. Where one isn't UTF-8 they are no words, which are none of the forms of a command.
pub fn words_of(alloc: Global, told: io::Result<Args>) -> Result<Words, NoMemory>
    ensures words { IfOk result (λ words. MatchResult told
        (λ args. words ≡ drop 1 (map string_bytes (into_iter_items args)))
        (λ _. words ≡ [])) }
    ensures memory { IfErr told (λ e. MatchResult result
        (λ _. error_kind e ≢ kind.OutOfMemory)
        (λ _. error_kind e ≡ kind.OutOfMemory)) }
{
    match told {
        Ok(args) => words_after_name(alloc, args),
        Err(error) => match error.kind() {
            ErrorKind::OutOfMemory => Err(NoMemory),
            _ => Ok(Words::make(alloc)),
        },
    }
}

/// All words but the first.
fn words_after_name(alloc: Global, args: Args) -> Result<Words, NoMemory>
    ensures { IfOk result (λ words. words ≡ drop 1 (map string_bytes (into_iter_items args))) }
{
    let mut words = Words::make(alloc);
    let mut rest = args;
    let _ = rest.next();
    while let Some(word) = rest.next() {
        words.add(word.as_str())?;
    }
    Ok(words)
}
