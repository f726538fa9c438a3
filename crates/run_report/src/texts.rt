//! The texts of runs that were refused, and of a test that found nothing wrong.
ghost use Rattle.std.specs.Prelude.{◌≡◌, ◌++◌, codes, decimal, IfOk, OnOk};
ghost use Rattle.run_report.specs.Texts as spec;

use mpm_base::{NoMemory, Octets};
use std::alloc::Global;

/// Why a script is refused.
#[derive(Clone, Copy)]
pub enum ScriptRefusal {
    /// The line is none of a script, or the script is too large.
    BadLine,
    /// The line goes back to an earlier moment.
    MomentBackwards,
    /// The line names a connection that no earlier line makes.
    UnknownName,
}

/// Why a configuration is refused.
#[derive(Clone, Copy)]
pub enum ConfigRefusal {
    /// The bytes are no text.
    NotText,
    /// The line names no directive.
    UnknownDirective,
    /// The line has a bad value, or the configuration is too large.
    BadValue,
    /// The line is no section, or closes none.
    BadSection,
    /// The section that the line opens is not closed.
    Unclosed,
    /// The line opens a section in too many others.
    TooDeep,
}

/// The text where the words of the command line are none that the program knows.
pub fn usage_text(alloc: Global) -> Result<Octets, NoMemory>
    ensures { IfOk result (λ text. text ≡ spec.usage) }
{
    Octets::of(
        alloc,
        b"usage: event_server --script FILE | --load N | -f FILE | -t -f FILE | -k WORD -f FILE\n",
    )
}

/// The text where the file of that name can't be read.
pub fn store_fault_text(alloc: Global, name: &[u8]) -> Result<Octets, NoMemory>
    ensures { IfOk result (λ text. text ≡ spec.store_fault name.now) }
{
    let mut text = Octets::of(alloc, b"store fault: ")?;
    text.add(name)?;
    text.add(b"\n")?;
    Ok(text)
}

/// The text where the line of that number, from 1, has the script refused. The number is 0 where the whole script has.
pub fn script_refused_text(alloc: Global, line: u64, why: ScriptRefusal) -> Result<Octets, NoMemory>
    ensures { IfOk result (λ text. text ≡ spec.script_refused line why) }
{
    let mut text = Octets::of(alloc, b"script refused at ")?;
    add_place(&mut text, line, refusal_word(why))?;
    Ok(text)
}

/// The text where the configuration is refused: at that line, from 1, or at that place, from 0, where it is no text. The number is 0
/// where it is too large.
pub fn config_refused_text(
    alloc: Global,
    number: u64,
    why: ConfigRefusal,
) -> Result<Octets, NoMemory>
    ensures { IfOk result (λ text. text ≡ spec.config_refused number why) }
{
    let mut text = Octets::of(alloc, b"configuration refused at ")?;
    add_place(&mut text, number, config_word(why))?;
    Ok(text)
}

/// The end of such a text: its number, and the word for what is wrong.
fn add_place(text: &mut Octets, number: u64, word: &[u8]) -> Result<(), NoMemory>
    ensures { OnOk result
        (text.new ≡ text.old ++ decimal number ++ codes ": " ++ word.now ++ codes "\n") }
{
    text.add_number(number)?;
    text.add(b": ")?;
    text.add(word)?;
    text.add(b"\n")
}

/// The text where the site is refused for the file or the folder of that name.
pub fn site_refused_text(alloc: Global, name: &[u8]) -> Result<Octets, NoMemory>
    ensures { IfOk result (λ text. text ≡ spec.site_refused name.now) }
{
    let mut text = Octets::of(alloc, b"site refused: ")?;
    text.add(name)?;
    text.add(b"\n")?;
    Ok(text)
}

/// Puts behind the warnings that the configuration is accepted.
pub fn add_syntax_ok(told: &mut Octets) -> Result<(), NoMemory>
    ensures { OnOk result (told.new ≡ told.old ++ spec.syntax_ok) }
{
    told.add(b"Syntax OK\n")
}

/// The name of the refusal.
fn refusal_word(why: ScriptRefusal) -> &'static [u8]
    ensures { result.now ≡ spec.refusal_word why }
{
    match why {
        ScriptRefusal::BadLine => b"BadLine",
        ScriptRefusal::MomentBackwards => b"MomentBackwards",
        ScriptRefusal::UnknownName => b"UnknownName",
    }
}

/// The name of the refusal of a configuration.
fn config_word(why: ConfigRefusal) -> &'static [u8]
    ensures { result.now ≡ spec.config_word why }
{
    match why {
        ConfigRefusal::NotText => b"NotText",
        ConfigRefusal::UnknownDirective => b"UnknownDirective",
        ConfigRefusal::BadValue => b"BadValue",
        ConfigRefusal::BadSection => b"BadSection",
        ConfigRefusal::Unclosed => b"Unclosed",
        ConfigRefusal::TooDeep => b"TooDeep",
    }
}

/// The text where a call of the front failed and no run opened.
pub fn front_fault_text(alloc: Global) -> Result<Octets, NoMemory>
    ensures { IfOk result (λ text. text ≡ spec.front_fault) }
{
    Octets::of(alloc, b"front fault\n")
}

/// The text where the configuration has no control line.
pub fn no_control_line_text(alloc: Global) -> Result<Octets, NoMemory>
    ensures { IfOk result (λ text. text ≡ spec.no_control_line) }
{
    Octets::of(alloc, b"no control line\n")
}
