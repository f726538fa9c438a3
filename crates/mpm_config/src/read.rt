//! Reads the configuration of a text.
ghost use Rattle.std.specs.Prelude.{◌≡◌, ◌==◌, ◌<◌, true, false, nat_lt, length, MatchResult, Ok};
ghost use Rattle.std.specs.List.{position_or_len};
ghost use Rattle.conf_text.specs.Line.{logical_lines};
ghost use Rattle.mpm_config.specs.Reading.{config_of, settings_of, start, text_len, ConfigAndWarnings, Refuses};
ghost use Rattle.mpm_config.specs.ReadingInside.{IsAnswer};

use crate::config::Config;
use crate::draft::Draft;
use crate::fault::ConfFault;
use crate::reader::Reader;
use crate::warning::Warnings;
use conf_text::{place_of, take_line};
use std::alloc::Global;

/// The place of the first NUL, or the length where there is none.
fn nul_place(bytes: &[u8]) -> usize
    ensures { result ≡ position_or_len (λ b. b == 0) bytes.now }
{
    place_of(bytes, 0).unwrap_or(bytes.len())
}

/// The bytes as a text, where they are UTF-8 without a NUL.
fn text_of(bytes: &[u8]) -> Result<&str, ConfFault>
    ensures { MatchResult result
        (λ text. (text.now ≡ bytes.now) × (nat_lt (text_len bytes.now) (length bytes.now) ≡ false))
        (λ e. (nat_lt (text_len bytes.now) (length bytes.now) ≡ true)
        × (e ≡ ConfFault.NotText (text_len bytes.now))) }
{
    let nul = nul_place(bytes);
    match std::str::from_utf8(bytes) {
        Ok(text) => {
            if nul < bytes.len() {
                return Err(ConfFault::NotText(nul as u64));
            }
            Ok(text)
        }
        Err(e) => Err(ConfFault::NotText(nul.min(e.valid_up_to()) as u64)),
    }
}

/// Reads the lines of a text.
fn read_lines(alloc: Global, text: &str) -> Result<Draft, ConfFault>
    ensures { IsAnswer (settings_of start (logical_lines text.now)) result }
{
    let mut reader = Reader::start(alloc)?;
    let mut line = String::new(alloc);
    let mut rest = text;
    let mut number = 1;
    while !rest.is_empty() {
        let (after, count) = take_line(rest, &mut line)?;
        reader.read_line(alloc, number, line.as_str())?;
        rest = after;
        number += count;
    }
    reader.finish()
}

/// Reads a configuration. Refused are, in this order: bytes that are no text, then the first line that has
/// something wrong, then a section that is not closed. Want of memory may come at any point.
pub fn read_config(alloc: Global, text: &[u8]) -> Result<(Config, Warnings), ConfFault>
    ensures { MatchResult result
        (λ read. config_of text.now ≡ Ok (record { config = read.0; warnings = read.1 }))
        (Refuses (config_of text.now)) }
{
    let draft = read_lines(alloc, text_of(text)?)?;
    match draft.finish(alloc) {
        Ok(read) => Ok(read),
        Err(_) => Err(ConfFault::NoMemory),
    }
}
