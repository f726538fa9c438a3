//! What is large: a body that is dropped as it comes, and a file that goes out as its link has room, or by few writes.

use crate::conns::{SECOND, cause_after, conn_of, show_bytes};
use crate::long_link::{LinkUse, LongLink};
use crate::sites::{large_site, site_named};
use crate::test_conn::TestConn;
use conn_state::{Ended, LastTurn};
use file_table::Site;
use mpm_base::{Cause, NoMemory, Octets, Sequence, Tail};
use stand_ins::{ScriptLink, Wire};
use std::alloc::Global;
use std::sync::Arc;
use test_rows::{Marks, Sheet, number_of, text_of, words};

/// The request for the large file.
const REQUEST: &[u8] = b"GET /large.bin HTTP/1.1\r\nHost: a\r\n\r\n";

/// More turns than a file takes.
const MOST_TURNS: u64 = 1_000_000;

/// Shows what comes of the client of the row, which sends a front, a unit so many times, and a back.
pub fn show_long(sheet: &mut Sheet, alloc: Global, row: &str) -> Result<(), NoMemory> {
    let site = site_named(alloc, "open")?;
    let link = long_link_of(alloc, row)?;
    show_talk(sheet, TestConn::new(alloc, site, link));
    Ok(())
}

/// Shows what comes of a connection whose client sends all at once.
fn show_talk(sheet: &mut Sheet, mut conn: TestConn<LongLink>) {
    let _ = conn.talk(SECOND);
    let cause = cause_after(conn.turn());
    let ended = conn.end(cause, Tail::Direct);
    show_end(sheet, ended.as_ref());
}

/// Shows by which calls of its link each file goes out to the client of the first row, which asks for it, and then sends until
/// no more is dropped.
pub fn show_calls(sheet: &mut Sheet, alloc: Global, rows: &str) -> Result<(), NoMemory> {
    let mut rows = rows.lines();
    let client = rows.next().unwrap_or("");
    for row in rows {
        print!(sheet; "{row} =>");
        show_called(sheet, alloc, client, row)?;
    }
    Ok(())
}

/// Shows by which calls of its link the file of the row goes out to the client.
fn show_called(sheet: &mut Sheet, alloc: Global, client: &str, row: &str) -> Result<(), NoMemory> {
    let file = text_of(alloc, row, Marks::Heads)?;
    let site = large_site(alloc, file.as_slice())?;
    let link = long_link_of(alloc, client)?;
    show_lingering(sheet, TestConn::new(alloc, site, link));
    Ok(())
}

/// Shows what comes of a connection that is half-closed behind its last response, and of which then no more is dropped.
fn show_lingering(sheet: &mut Sheet, mut conn: TestConn<LongLink>) {
    let _ = conn.talk(SECOND);
    let _ = conn.shut();
    let _ = conn.drop_rest();
    let ended = conn.end(Cause::LastSent, Tail::Sated);
    show_end(sheet, ended.as_ref());
}

/// The link of the client of the row.
fn long_link_of(alloc: Global, row: &str) -> Result<LongLink, NoMemory> {
    let (_, rest) = row.split_once("; ").unwrap_or((row, ""));
    let (times, _) = rest.split_once("; ").unwrap_or((rest, ""));
    let parts = parts_of(alloc, row)?;
    Ok(LongLink::make(alloc, parts, number_of(times)))
}

/// The texts that the parts of the row write.
fn parts_of(alloc: Global, row: &str) -> Result<Sequence<Octets>, NoMemory> {
    let mut parts = Sequence::make(alloc);
    for part in row.split("; ") {
        parts.push(text_of(alloc, part, Marks::Heads)?)?;
    }
    Ok(parts)
}

/// Shows what came of a connection over such a link, and how the link was called.
fn show_end(sheet: &mut Sheet, ended: Option<&Ended<LongLink>>) {
    let Some(ended) = ended else {
        return sheet.println(" may not be");
    };
    print!(sheet;
        " {:?} {:?}, {} notes",
        ended.cause,
        ended.tail,
        ended.notes.len()
    );
    show_bytes(sheet, ", sent", ended.link.taken.as_slice());
    let LinkUse {
        reads,
        room,
        writes,
    } = ended.link.calls;
    println!(sheet; ", {writes} writes, {reads} reads of {room} bytes at most");
}

/// Shows what comes of a client that asks for a file of so many bytes, and whose link has room for so many bytes in each turn.
pub fn show_slow(sheet: &mut Sheet, alloc: Global, row: &str) -> Result<(), NoMemory> {
    let (size, room) = words(row);
    let file = large_file(alloc, number_of(size))?;
    let site = large_site(alloc, file.as_slice())?;
    show_file(sheet, alloc, &site, file.as_slice(), number_of(room))
}

/// Shows what comes of a client that asks the site for this file.
fn show_file(
    sheet: &mut Sheet,
    alloc: Global,
    site: &Arc<Site>,
    file: &[u8],
    room: u64,
) -> Result<(), NoMemory> {
    let wire = Arc::new(alloc, Wire::make())?;
    let conn = conn_of(alloc, site, REQUEST, &wire)?;
    show_turns(sheet, conn, &wire, room, file);
    Ok(())
}

/// Shows in how many turns the connection sends the file, and what it sent.
fn show_turns(
    sheet: &mut Sheet,
    mut conn: TestConn<ScriptLink>,
    wire: &Wire,
    room: u64,
    file: &[u8],
) {
    let turns = send_slowly(&mut conn, wire, room);
    print!(sheet; " {turns} turns, {:?}", conn.turn());
    let ended = conn.end(Cause::Stopped, Tail::Direct);
    show_sent(sheet, ended.as_ref(), file);
}

/// A file of so many bytes, at most 4,095 more.
fn large_file(alloc: Global, size: u64) -> Result<Octets, NoMemory> {
    let piece = text_of(alloc, "`256 0123456789abcdef`", Marks::Heads)?;
    let mut file = Octets::make(alloc);
    for _ in 0..size.div_ceil(4096) {
        file.add(piece.as_slice())?;
    }
    Ok(file)
}

/// Asks for the file, and sends it, in each turn as many bytes as there is room for. How many turns it took.
fn send_slowly(conn: &mut TestConn<ScriptLink>, wire: &Wire, room: u64) -> u64 {
    wire.bring(REQUEST.len() as u64);
    let _ = conn.read();
    let _ = conn.answer(SECOND, false);
    for turns in 0..MOST_TURNS {
        if !matches!(conn.turn(), LastTurn::Answered | LastTurn::NotReady) {
            return turns;
        }
        wire.allow(Some(room));
        let _ = conn.write();
    }
    MOST_TURNS
}

/// Shows the head that was sent, how many bytes were, and whether they end with the file.
fn show_sent(sheet: &mut Sheet, ended: Option<&Ended<ScriptLink>>, file: &[u8]) {
    let Some(ended) = ended else {
        return sheet.println(", may not be");
    };
    let sent = ended.link.sent();
    let head = sent.len() - sent.len().min(file.len());
    show_bytes(sheet, ", head", &sent[..head]);
    let is_sent = sent.ends_with(file);
    println!(sheet; ", sent {} bytes, the file is sent: {is_sent}", sent.len());
}
