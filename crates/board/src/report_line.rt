//! The lines that a report has for connections that ended.
ghost use Rattle.std.specs.Prelude.{◌≡◌, ◌++◌, map, IfOk, OnOk};
ghost use Rattle.conn_machine.specs.Folds.{lines_after};
ghost use Rattle.board_book.specs.BookInside.{lines_then};
ghost use Rattle.board.specs.ReportLine as line;

use conn_state::Ended;
use mpm_base::{Cause, Link, NoMemory, Octets, Tail};
use std::alloc::Global;

/// How many of the connections that ended have a line of their own.
const MOST_LINES: u64 = 64;

/// The lines with those of further connections that ended, where so many had ended before: as long as there are fewer than 64, one for each
/// of these.
pub fn lines_after<L: Link>(
    alloc: Global,
    lines: &Octets,
    closed: u64,
    ended: &[Ended<L>],
) -> Result<Octets, NoMemory>
    ensures { IfOk result
        (λ text. text ≡ lines_after (map line.line_of ended.now) closed lines.now) }
{
    let mut text = Octets::of(alloc, lines.as_slice())?;
    for i in 0..(ended.len() as u64).min(MOST_LINES.saturating_sub(closed)) {
        add_line(&mut text, &ended[i as usize])?;
    }
    Ok(text)
}

/// The same lines, where further ones come: none where 64 are there, or nothing ended. Then no memory is wanted.
pub(crate) fn further_lines<L: Link>(
    alloc: Global,
    lines: &Octets,
    closed: u64,
    ended: &[Ended<L>],
) -> Result<Option<Octets>, NoMemory>
    ensures { IfOk result
        (λ more. lines_then more lines.now
        ≡ lines_after (map line.line_of ended.now) closed lines.now) }
{
    if closed >= MOST_LINES || ended.is_empty() {
        return Ok(None);
    }
    Ok(Some(lines_after(alloc, lines, closed, ended)?))
}

/// The name of a cause.
pub fn cause_word(cause: Cause) -> &'static [u8]
    ensures { result.now ≡ line.cause_word cause }
{
    match cause {
        Cause::ClientDone => b"ClientDone",
        Cause::LastSent => b"LastSent",
        Cause::KeepAliveLate => b"KeepAliveLate",
        Cause::ReadLate => b"ReadLate",
        Cause::WriteLate => b"WriteLate",
        Cause::Retiring => b"Retiring",
        Cause::LinkFailed => b"LinkFailed",
        Cause::Stopped => b"Stopped",
        Cause::NoMemory => b"NoMemory",
    }
}

/// The name of a tail.
fn tail_word(tail: Tail) -> &'static [u8]
    ensures { result.now ≡ line.tail_word tail }
{
    match tail {
        Tail::Direct => b"Direct",
        Tail::Drained => b"Drained",
        Tail::Sated => b"Sated",
        Tail::Late => b"Late",
        Tail::Failed => b"Failed",
        Tail::Halted => b"Halted",
        Tail::NoMemory => b"NoMemory",
    }
}

/// Adds the line of a connection that ended.
fn add_line<L: Link>(text: &mut Octets, ended: &Ended<L>) -> Result<(), NoMemory>
    ensures { OnOk result (text.new ≡ text.old ++ line.line_of ended.now) }
{
    text.add_number(ended.generation as u64)?;
    text.add(b" ")?;
    text.add(cause_word(ended.cause))?;
    text.add(b" ")?;
    text.add(tail_word(ended.tail))?;
    text.add(b" ")?;
    add_codes(text, ended.notes.codes())?;
    text.add(b"\n")
}

/// Adds the codes of the responses, with commas between them.
fn add_codes(text: &mut Octets, codes: &[u16]) -> Result<(), NoMemory>
    ensures { OnOk result (text.new ≡ text.old ++ line.written_codes codes.now) }
{
    let Some((first, rest)) = codes.split_first() else {
        return text.add(b"-");
    };
    text.add_number(*first as u64)?;
    for code in rest {
        add_code(text, *code)?;
    }
    Ok(())
}

/// Adds a comma and the code.
fn add_code(text: &mut Octets, code: u16) -> Result<(), NoMemory>
    ensures { OnOk result (text.new ≡ text.old ++ line.further_code code) }
{
    text.add(b",")?;
    text.add_number(code as u64)
}
