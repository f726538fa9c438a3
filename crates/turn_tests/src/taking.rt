//! How the listener of a test takes a connection: it is accepted in one turn, and begins to wait in a further one.
ghost use Rattle.std.specs.Prelude.{◌≡◌, ℕ, true, None, IfSome};
ghost use Rattle.board_turns.specs.Turns.{IsListener};
ghost use Rattle.listener_turns.specs.Holds.{HasTaken};
ghost use Rattle.turn_tests.specs.Taking.{IsNew};

use crate::clients::{Client, link_of};
use crate::links::TestLink;
use crate::opening::TestBoard;
use crate::tally::Tally;
use board::Taken;
use board::laws::waits_are_backed_by_calls;
use board_lock::{Pass, Shared};
use conn_state::{Conn, Nothing};
use file_table::Site;
use http_read::Limits;
use listener_turns::{accept, park};
use mpm_base::Kind;
use std::alloc::Global;
use std::sync::{Arc, Wait};

/// The limits of the heads.
const LIMITS: Limits = Limits {
    line: 100,
    field: 100,
    fields: 10,
};

/// A connection is taken, of the client, and waits for its request: whether it does. None where it was taken and can't wait.
pub fn takes<R: Wait>(
    rt: &R,
    alloc: Global,
    shared: &Shared<TestBoard>,
    pass: &mut Pass<TestBoard>,
    site: &Arc<Site>,
    tally: &Arc<Tally>,
    client: Client,
) -> Option<bool>
    requires own { pass.old.seat.table_id ≡ shared.now.table.shared.table_id }
    requires listener { IsListener pass.old.seat.me }
    requires none { pass.old.seat.me.0.row ≡ None }
    ensures own { pass.new.seat.table_id ≡ pass.old.seat.table_id }
    ensures listener { IsListener pass.new.seat.me }
    ensures credits { pass.new.seat.me.0.credits ≡ pass.old.seat.me.0.credits }
    ensures none { IfSome result (λ _. pass.new.seat.me.0.row ≡ None) }
{
    let Ok(taken) = accept(rt, shared, pass) else {
        return Some(false);
    };
    tally.takes(taken.name.slot);
    let conn = conn_for(alloc, site, tally, taken, client)?;
    if waits(rt, shared, pass, taken, conn) {
        return Some(true);
    }
    None
}

/// The connection that was taken, of the client.
fn conn_for(
    alloc: Global,
    site: &Arc<Site>,
    tally: &Arc<Tally>,
    taken: Taken,
    client: Client,
) -> Option<Conn<TestLink, Nothing>>
    ensures { IfSome result (IsNew taken.name taken.child taken.generation) }
{
    let Ok(site) = Arc::try_clone(site) else {
        return None;
    };
    let Ok(link) = link_of(alloc, tally, client) else {
        return None;
    };
    let Taken {
        name,
        child,
        generation,
    } = taken;
    Some(Conn::new(alloc, name, child, generation, LIMITS, site, link))
}

/// The connection that was just taken waits for its request: whether it does.
fn waits<R: Wait>(
    rt: &R,
    shared: &Shared<TestBoard>,
    pass: &mut Pass<TestBoard>,
    taken: Taken,
    conn: Conn<TestLink, Nothing>,
) -> bool
    requires own { pass.old.seat.table_id ≡ shared.now.table.shared.table_id }
    requires listener { IsListener pass.old.seat.me }
    requires taken { (arrival : ℕ)
        × HasTaken pass.old.seat.me.0 taken.name taken.child taken.generation arrival }
    requires is_new { IsNew taken.name taken.child taken.generation conn }
    ensures own { pass.new.seat.table_id ≡ pass.old.seat.table_id }
    ensures listener { IsListener pass.new.seat.me }
    ensures credits { pass.new.seat.me.0.credits ≡ pass.old.seat.me.0.credits }
    ensures none { result ≡ true → pass.new.seat.me.0.row ≡ None }
{
    waits_are_backed_by_calls();
    conn.show();
    match park(rt, shared, pass, Kind::Reading, conn) {
        Ok(()) => true,
        Err(_) => false,
    }
}
