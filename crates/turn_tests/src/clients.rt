//! The clients of the board, and the site from which they are served.
use crate::links::TestLink;
use crate::tally::Tally;
use failing_stand_ins::MemStore;
use file_table::{LoadFault, Site, SiteOrder, load};
use mpm_base::{LinkCall, NoMemory, Octets};
use stand_ins::{Calls, Files, ScriptLink, Wire};
use std::alloc::Global;
use std::sync::Arc;

/// Of how many kinds clients are, one after the other by their numbers.
const KINDS: u32 = 7;

/// The kind of one that asks for its connection to be closed.
const LEAVES: u32 = 7;

/// The kind of one that waits.
const WAITS: u32 = 8;

/// A request, of a file that isn't there.
const ASKS: &[u8] = b"GET / HTTP/1.1\r\nHost: a\r\n\r\n";

/// Three of them, which come together.
const ASKS_THRICE: &[u8] =
    b"GET /1 HTTP/1.1\r\nHost: a\r\n\r\nGET /22 HTTP/1.1\r\nHost: a\r\n\r\nHEAD / HTTP/1.1\r\nHost: a\r\n\r\n";

/// Half of one.
const HALF: &[u8] = b"GET / HTTP/1.1\r\nHo";

/// One behind which the connection is to be closed.
const ASKS_LAST: &[u8] = b"GET / HTTP/1.1\r\nHost: a\r\nConnection: close\r\n\r\n";

/// A site without a file.
pub fn empty_site(alloc: Global) -> Result<Site, LoadFault> {
    let mut store = MemStore::make(alloc, Files::make(alloc), Calls::make(alloc));
    let order = SiteOrder::one_host(alloc, "htdocs", "index.html", true)?;
    load(alloc, &mut store, &order)
}

/// A client: its number, and how many there are.
#[derive(Clone, Copy)]
pub struct Client {
    pub number: u32,
    pub count: u32,
}

/// The kind of the client. The last one leaves; where clients wait, all of them do.
fn kind_of(client: Client, waits: bool) -> u32 {
    if waits {
        return WAITS;
    }
    if client.number.saturating_add(1) >= client.count {
        return LEAVES;
    }
    client.number % KINDS
}

/// What a client of that kind sends before it sends no more.
fn text_of(kind: u32) -> &'static [u8] {
    match kind {
        1 | WAITS => b"",
        2 | 3 | 4 => ASKS_THRICE,
        5 => HALF,
        LEAVES => ASKS_LAST,
        _ => ASKS,
    }
}

/// How little a link of that kind gives and takes at once; where that isn't all, only each second call finds something.
fn pace_of(kind: u32) -> Option<u64> {
    match kind {
        3 => Some(11),
        4 => Some(57),
        _ => None,
    }
}

/// Which of its calls fails, where one does: a client of kind 5 resets the connection where more should come, and one of kind 6 where it is
/// sent a response.
fn reset_of(kind: u32) -> Option<LinkCall> {
    match kind {
        5 => Some(LinkCall::Read),
        6 => Some(LinkCall::Write),
        _ => None,
    }
}

/// The calls of that sort that fail: the second read, or the first write.
fn failing(alloc: Global, call: LinkCall, reset: Option<LinkCall>) -> Result<Calls, NoMemory> {
    let mut calls = Calls::make(alloc);
    match (call, reset) {
        (LinkCall::Read, Some(LinkCall::Read)) => calls.add(2)?,
        (LinkCall::Write, Some(LinkCall::Write)) => calls.add(1)?,
        _ => (),
    }
    Ok(calls)
}

/// The link of the client.
pub fn link_of(alloc: Global, tally: &Arc<Tally>, client: Client) -> Result<TestLink, NoMemory> {
    let kind = kind_of(client, tally.habits().services != 0);
    let Ok(wire) = Arc::new(alloc, wire_of(kind)) else {
        return Err(NoMemory);
    };
    let Ok(tally) = Arc::try_clone(tally) else {
        return Err(NoMemory);
    };
    let inner = script_of(alloc, client.number, kind, &wire)?;
    Ok(TestLink::of(inner, wire, tally, client.number, pace_of(kind)))
}

/// The scripted link of a client of that number and kind, which this paces.
fn script_of(
    alloc: Global,
    number: u32,
    kind: u32,
    wire: &Arc<Wire>,
) -> Result<ScriptLink, NoMemory> {
    let Ok(wire) = Arc::try_clone(wire) else {
        return Err(NoMemory);
    };
    let reset = reset_of(kind);
    let coming = Octets::of(alloc, text_of(kind))?;
    let reads = failing(alloc, LinkCall::Read, reset)?;
    let writes = failing(alloc, LinkCall::Write, reset)?;
    Ok(ScriptLink::paced(alloc, number as u64, coming, wire, reads, writes, false))
}

/// What paces the link of a client of that kind: all has come and there is room for all, or nothing yet.
fn wire_of(kind: u32) -> Wire {
    let wire = Wire::make();
    if kind != WAITS {
        wire.end();
    }
    match pace_of(kind) {
        Some(_) => wire.allow(Some(0)),
        None => wire.bring(1_000),
    }
    if let Some(call) = reset_of(kind) {
        wire.fail(call);
    }
    wire
}
