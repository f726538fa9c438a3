//! Connections whose turns the input says one by one, and connections whose bytes are cut.
ghost use Rattle.std.specs.Prelude.{IfOk};
ghost use Rattle.conn_state.specs.Conn.{IsFresh};

use crate::sites::site_named;
use crate::test_conn::TestConn;
use conn_state::{Ended, LastTurn};
use file_table::Site;
use mpm_base::{Cause, LinkCall, NoMemory, Octets, Tail};
use stand_ins::{Calls, ScriptLink, Wire};
use std::alloc::Global;
use std::sync::Arc;
use test_rows::{Marks, Sheet, listed_as, number_of, text_of, words};

/// The second of the example in RFC 9110, section 5.6.7.
pub const SECOND: u64 = 784_111_777;

/// The causes by their names.
const CAUSES: [(&str, Cause); 9] = [
    ("ClientDone", Cause::ClientDone),
    ("LastSent", Cause::LastSent),
    ("KeepAliveLate", Cause::KeepAliveLate),
    ("ReadLate", Cause::ReadLate),
    ("WriteLate", Cause::WriteLate),
    ("Retiring", Cause::Retiring),
    ("LinkFailed", Cause::LinkFailed),
    ("Stopped", Cause::Stopped),
    ("NoMemory", Cause::NoMemory),
];

/// The tails by their names.
const TAILS: [(&str, Tail); 7] = [
    ("Direct", Tail::Direct),
    ("Drained", Tail::Drained),
    ("Sated", Tail::Sated),
    ("Late", Tail::Late),
    ("Failed", Tail::Failed),
    ("Halted", Tail::Halted),
    ("NoMemory", Tail::NoMemory),
];

/// The link of a client that sends the text as the wire says, the first read and the first write of which fail where the wire says so.
fn link_of(alloc: Global, text: &[u8], wire: Arc<Wire>) -> Result<ScriptLink, NoMemory>
    ensures { IfOk result (λ link. IsFresh link.told) }
{
    let mut reads = Calls::make(alloc);
    reads.add(1)?;
    let mut writes = Calls::make(alloc);
    writes.add(1)?;
    let coming = Octets::of(alloc, text)?;
    Ok(ScriptLink::paced(alloc, 7, coming, wire, reads, writes, false))
}

/// The connection of a client that sends the text as the wire says.
pub fn conn_of(
    alloc: Global,
    site: &Arc<Site>,
    text: &[u8],
    wire: &Arc<Wire>,
) -> Result<TestConn<ScriptLink>, NoMemory> {
    let theirs = Arc::try_clone(wire)?;
    let ours = Arc::try_clone(site)?;
    let link = link_of(alloc, text, theirs)?;
    Ok(TestConn::new(alloc, ours, link))
}

/// Shows what comes of each row of turns of a client that sends the text of the first row.
pub fn show_turns(sheet: &mut Sheet, alloc: Global, rows: &str) -> Result<(), NoMemory> {
    let site = site_named(alloc, "open")?;
    let (text, rows) = rows.split_once('\n').unwrap_or((rows, ""));
    let text = text_of(alloc, text, Marks::Heads)?;
    show_rows(sheet, alloc, &site, text.as_slice(), rows)
}

/// Shows what comes of each row of turns of a client that sends the text.
fn show_rows(
    sheet: &mut Sheet,
    alloc: Global,
    site: &Arc<Site>,
    text: &[u8],
    rows: &str,
) -> Result<(), NoMemory> {
    for row in rows.lines() {
        let (turns, end) = row.rsplit_once("; ").unwrap_or(("", row));
        let wire = Arc::new(alloc, Wire::make())?;
        show_row(sheet, &wire, conn_of(alloc, site, text, &wire)?, turns, end);
    }
    Ok(())
}

/// Shows what comes of the turns of the connection, which is to be ended so.
fn show_row(
    sheet: &mut Sheet,
    wire: &Wire,
    mut conn: TestConn<ScriptLink>,
    turns: &str,
    end: &str,
) {
    show_each(sheet, wire, &mut conn, turns);
    let ended = end_as(conn, end);
    show_end(sheet, ended.as_ref(), end);
}

/// Shows what each turn of the connection answers.
fn show_each(sheet: &mut Sheet, wire: &Wire, conn: &mut TestConn<ScriptLink>, turns: &str) {
    for turn in turns.split("; ") {
        show_turn(sheet, wire, conn, turn);
    }
}

/// Ends the connection as the words say; none where it may not be ended so.
fn end_as(conn: TestConn<ScriptLink>, end: &str) -> Option<Ended<ScriptLink>> {
    let (_, names) = words(end);
    let (cause, tail) = words(names);
    let cause = listed_as(&CAUSES, cause).unwrap_or(Cause::NoMemory);
    let tail = listed_as(&TAILS, tail).unwrap_or(Tail::NoMemory);
    conn.end(cause, tail)
}

/// Shows what came of a connection, or that it might not be ended as the words say, where there are any.
fn show_end(sheet: &mut Sheet, ended: Option<&Ended<ScriptLink>>, end: &str) {
    match ended {
        Some(ended) => show_ended(sheet, ended),
        None if end.is_empty() => sheet.println("may not be"),
        None => println!(sheet; "{end} => may not be"),
    }
}

/// Shows what a turn of the connection answers, or does what the word says of its link.
fn show_turn(sheet: &mut Sheet, wire: &Wire, conn: &mut TestConn<ScriptLink>, turn: &str) {
    let (word, rest) = words(turn);
    match word {
        "show" => conn.show(sheet),
        "brings" | "ends" | "allows" | "fails" => pace(wire, word, rest),
        _ => {
            if make_turn(conn, word, rest) {
                println!(sheet; "{turn} => {:?}, {:?}", conn.turn(), conn.linger());
            } else {
                println!(sheet; "{turn} => may not be");
            }
        }
    }
}

/// What paces the link says so.
fn pace(wire: &Wire, word: &str, rest: &str) {
    match word {
        "brings" => wire.bring(number_of(rest)),
        "ends" => wire.end(),
        "allows" => wire.allow(rest.parse::<u64>().ok()),
        _ if rest == "read" => wire.fail(LinkCall::Read),
        _ => wire.fail(LinkCall::Write),
    }
}

/// Makes the turn of that word. False where it may not be made. `rest` is the second of an answer, and of all turns that may be made.
fn make_turn(conn: &mut TestConn<ScriptLink>, word: &str, rest: &str) -> bool {
    match word {
        "read" => conn.read(),
        "answer" => conn.answer(number_of(rest), false),
        "last" => conn.answer(number_of(rest), true),
        "write" => conn.write(),
        "shut" => conn.shut(),
        "drop" => conn.drop_rest(),
        _ => conn.talk(number_of(rest)),
    }
}

/// Shows what came of a connection.
fn show_ended(sheet: &mut Sheet, ended: &Ended<ScriptLink>) {
    let link = &ended.link;
    let notes = ended.notes.len();
    print!(sheet; "{:?} {:?}, {notes} notes", ended.cause, ended.tail);
    show_bytes(sheet, ", sent", link.sent());
    show_bytes(sheet, ", left", link.left());
    println!(sheet;
        ", {} shuts, {} closes, {} faults",
        link.shuts(),
        link.closes(),
        link.faults()
    );
}

/// Shows the bytes under the name, in the same line; of more than 600 their number.
pub fn show_bytes(sheet: &mut Sheet, name: &str, bytes: &[u8]) {
    if bytes.len() <= 600 {
        sheet.bytes(name, bytes);
    } else {
        print!(sheet; "{name} {} bytes", bytes.len());
    }
}

/// Shows what comes of the client of that text, and what else comes of it where its bytes are cut behind one of them: so many come first.
pub fn show_client(sheet: &mut Sheet, alloc: Global, text: &[u8]) -> Result<(), NoMemory> {
    let site = site_named(alloc, "open")?;
    show_client_of(sheet, alloc, &site, text)
}

/// Shows the same, where this is the site.
fn show_client_of(
    sheet: &mut Sheet,
    alloc: Global,
    site: &Arc<Site>,
    text: &[u8],
) -> Result<(), NoMemory> {
    let whole = talk_cut(alloc, site, text, 0)?;
    sheet.print(" ");
    show_end(sheet, whole.as_ref(), "");
    show_others(sheet, alloc, site, text, whole.as_ref())
}

/// Shows what else than the whole comes of the client of that text where its bytes are cut.
fn show_others(
    sheet: &mut Sheet,
    alloc: Global,
    site: &Arc<Site>,
    text: &[u8],
    whole: Option<&Ended<ScriptLink>>,
) -> Result<(), NoMemory> {
    for count in 1..text.len() {
        show_cut(sheet, alloc, site, text, count, whole)?;
    }
    Ok(())
}

/// Shows what comes of a client of whose text so many bytes come first, if it is something else than the whole.
fn show_cut(
    sheet: &mut Sheet,
    alloc: Global,
    site: &Arc<Site>,
    text: &[u8],
    count: usize,
    whole: Option<&Ended<ScriptLink>>,
) -> Result<(), NoMemory> {
    let ended = talk_cut(alloc, site, text, count)?;
    show_other(sheet, count, ended.as_ref(), whole);
    Ok(())
}

/// Shows what came of a client of whose text so many bytes came first, if it is something else than the whole.
fn show_other(
    sheet: &mut Sheet,
    count: usize,
    ended: Option<&Ended<ScriptLink>>,
    whole: Option<&Ended<ScriptLink>>,
) {
    if differ(ended, whole) {
        print!(sheet; "but {count} => ");
        show_end(sheet, ended, "");
    }
}

/// Whether the two connections sent other bytes, or ended for other causes.
fn differ(one: Option<&Ended<ScriptLink>>, other: Option<&Ended<ScriptLink>>) -> bool {
    match (one, other) {
        (Some(one), Some(other)) => {
            one.link.sent() != other.link.sent() || one.cause != other.cause
        }
        _ => one.is_some() != other.is_some(),
    }
}

/// What comes of a client of whose text so many bytes come first, and then the others and the end; none where it may not be ended.
fn talk_cut(
    alloc: Global,
    site: &Arc<Site>,
    text: &[u8],
    count: usize,
) -> Result<Option<Ended<ScriptLink>>, NoMemory> {
    let wire = Arc::new(alloc, Wire::make())?;
    let mut conn = conn_of(alloc, site, text, &wire)?;
    wire.bring(count as u64);
    let _ = conn.talk(SECOND);
    wire.bring(text.len() as u64);
    wire.end();
    let _ = conn.talk(SECOND);
    let cause = cause_after(conn.turn());
    Ok(conn.end(cause, Tail::Direct))
}

/// For what a connection ends whose last turn answered so.
pub fn cause_after(turn: LastTurn) -> Cause {
    match turn {
        LastTurn::Gone => Cause::ClientDone,
        LastTurn::LinkFailed => Cause::LinkFailed,
        LastTurn::NoMemory => Cause::NoMemory,
        _ => Cause::Stopped,
    }
}
