//! The clients of the boards, and the site from which they are served.
ghost use Rattle.std.specs.Prelude.{◌≡◌, IfOk};
ghost use Rattle.conn_state.specs.Conn.{IsFresh};

use failing_stand_ins::MemStore;
use file_table::{LoadFault, Site, SiteOrder, load};
use mpm_base::{NoMemory, Octets};
use stand_ins::{Calls, Files, ScriptLink, Wire};
use std::alloc::Global;
use std::sync::Arc;

/// A request, of a file that isn't there.
const ASKS: &[u8] = b"GET / HTTP/1.1\r\nHost: a\r\n\r\n";

/// A request with which the client asks to close.
const ASKS_LAST: &[u8] = b"GET / HTTP/1.1\r\nHost: a\r\nConnection: close\r\n\r\n";

/// What the clients send: a request, two of them, a last one, what is refused, the begin of a request, and nothing.
const TEXTS: [&[u8]; 6] = [
    ASKS,
    b"GET / HTTP/1.1\r\nHost: a\r\n\r\nGET / HTTP/1.1\r\nHost: a\r\n\r\n",
    ASKS_LAST,
    b"GET /\r\n\r\n",
    b"GET /",
    b"",
];

/// A site without a file.
pub fn empty_site(alloc: Global) -> Result<Site, LoadFault> {
    let order = SiteOrder::one_host(alloc, "htdocs", "index.html", true)?;
    let mut store = MemStore::make(alloc, Files::make(alloc), Calls::make(alloc));
    load(alloc, &mut store, &order)
}

/// What the client of that number sends.
fn text_of(client: u64) -> &'static [u8] {
    match TEXTS.get((client % 6) as usize) {
        Some(text) => text,
        None => ASKS,
    }
}

/// The link of a client, as its number says: all that it sends has come, and one in three sends no more then; one in four takes
/// nothing of what is sent to it.
pub fn link_of(alloc: Global, rank: u64, client: u64) -> Result<ScriptLink, NoMemory>
    ensures fresh { IfOk result (λ link. IsFresh link.told) }
    ensures rank { IfOk result (λ link. link.told.rank ≡ rank) }
{
    let coming = Octets::of(alloc, text_of(client))?;
    let Ok(wire) = Arc::new(alloc, wire_of(client / 6)) else {
        return Err(NoMemory);
    };
    Ok(ScriptLink::paced(
        alloc,
        rank,
        coming,
        wire,
        Calls::make(alloc),
        Calls::make(alloc),
        false,
    ))
}

/// What paces the link.
fn wire_of(client: u64) -> Wire {
    let wire = Wire::make();
    wire.bring(1_000);
    if client % 3 == 0 {
        wire.end();
    }
    if client % 4 == 0 {
        wire.allow(Some(0));
    }
    wire
}
