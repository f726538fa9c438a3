//! How a connection is taken: it is accepted in one turn, the front watches its link behind that, and in a further turn it begins to wait.
//! Why it is so stands in docs/DECISIONS.md: 140, Parts of the listener's round.
ghost use Rattle.std.specs.Prelude.{◌≡◌, ◌<◌, ℕ, [], ◌∷◌, None, true, false, IfErr, IfNone, IfOk, IfSome, OnOk};
ghost use Rattle.conn_machine.specs.declared.event.Event.TheVariants as event;
ghost use Rattle.conn_state.specs.Conn.{IsFresh};
ghost use Rattle.conn_state.specs.Known.{IsOfClient};
ghost use Rattle.board_book.specs.Faults.{IsRefusedFor};
ghost use Rattle.worker_group.specs.Service as service;
ghost use Rattle.worker_group.specs.Service.{give_up_events, left_events};
ghost use Rattle.board_turns.specs.Books.{book_of, state_of};
ghost use Rattle.board_turns.specs.Turns.{HadATurn, HadTurns, IsListener};
ghost use Rattle.listener_turns.specs.Holds.{HasTaken};
ghost use Rattle.listener_parts.specs.Did.{LeavesAlone};
ghost use Rattle.listener_parts.specs.Letting.{RefusedWait};
ghost use Rattle.listener_parts.specs.Taking.{FailsTaking, IsNew, ServesNewest, TakesLink, way_of};

use board::laws::{generations_keep_their_editions, waits_are_backed_by_calls};
use board::{AcceptFault, Board, BoardFault, Taken};
use board_lock::{Pass, Shared};
use board_turns::turns_rest_on_these;
use conn_machine::laws_between_turns::others_leave_the_rest_to_the_listener;
use conn_state::{Conn, Known};
use file_table::Site;
use http_read::Limits;
use listener_turns::{accept, close, park};
use mpm_base::{Cause, Front, Kind, Link, Tail};
use std::alloc::Global;
use std::sync::{Arc, Wait};

/// Takes a connection into a slot, for the child that takes one. Where none does in a turn, or no slot is vacant, it tries again in a further
/// one: behind a look that found that one may be taken, that is so only until a worker has left what it was handed meanwhile.
pub fn accept_one<R: Wait, L: Link, N: Known>(
    rt: &R,
    shared: &Shared<Board<L, N>>,
    pass: &mut Pass<Board<L, N>>,
) -> Result<Taken, BoardFault>
    requires own { pass.old.seat.table_id ≡ shared.now.table.shared.table_id }
    requires listener { IsListener pass.old.seat.me }
    requires none { pass.old.seat.me.0.row ≡ None }
    ensures own { pass.new.seat.table_id ≡ pass.old.seat.table_id }
    ensures listener { IsListener pass.new.seat.me }
    ensures took { IfOk result
        (λ taken. HadTurns (event.Accept taken.name.slot ∷ []) pass.old.seat.me.0
        pass.new.seat.me.0) }
    ensures taken { IfOk result
        (λ taken. HasTaken pass.new.seat.me.0 taken.name taken.child taken.generation
        (state_of pass.old.seat.me.0).accepted) }
    ensures err { IfErr result (λ _. HadTurns [] pass.old.seat.me.0 pass.new.seat.me.0) }
    ensures no_row { IfErr result (λ _. pass.new.seat.me.0.row ≡ None) }
    ensures stays { IfErr result
        (λ _. LeavesAlone (state_of pass.old.seat.me.0) (state_of pass.new.seat.me.0)) }
    ensures why { IfErr result (λ fault. IsRefusedFor fault (book_of pass.new.seat.me.0)) }
    ensures credits { pass.new.seat.me.0.credits ≡ pass.old.seat.me.0.credits }
    ensures rest { LeavesAlone (record (state_of pass.old.seat.me.0)
        { accepted = (state_of pass.new.seat.me.0).accepted }) (state_of pass.new.seat.me.0) }
{
    turns_rest_on_these();
    others_leave_the_rest_to_the_listener();
    for _ in rt.forever() {
        if let Some(taken) = try_accept(rt, shared, pass)? {
            return Ok(taken);
        }
    }
    unreachable!()
}

/// Takes one in one turn. None where no child takes one in it, or no slot is vacant.
fn try_accept<R: Wait, L: Link, N: Known>(
    rt: &R,
    shared: &Shared<Board<L, N>>,
    pass: &mut Pass<Board<L, N>>,
) -> Result<Option<Taken>, BoardFault>
    requires own { pass.old.seat.table_id ≡ shared.now.table.shared.table_id }
    requires listener { IsListener pass.old.seat.me }
    requires none { pass.old.seat.me.0.row ≡ None }
    ensures own { pass.new.seat.table_id ≡ pass.old.seat.table_id }
    ensures listener { IsListener pass.new.seat.me }
    ensures took { IfOk result
        (λ o. IfSome o
        (λ taken. HadATurn (event.Accept taken.name.slot ∷ []) pass.old.seat.me.0
        pass.new.seat.me.0)) }
    ensures taken { IfOk result
        (λ o. IfSome o
        (λ taken. HasTaken pass.new.seat.me.0 taken.name taken.child taken.generation
        (state_of pass.old.seat.me.0).accepted)) }
    ensures none { IfOk result
        (λ o. IfNone o (HadATurn [] pass.old.seat.me.0 pass.new.seat.me.0)) }
    ensures none_row { IfOk result (λ o. IfNone o (pass.new.seat.me.0.row ≡ None)) }
    ensures err { IfErr result (λ _. HadATurn [] pass.old.seat.me.0 pass.new.seat.me.0) }
    ensures err_row { IfErr result (λ _. pass.new.seat.me.0.row ≡ None) }
    ensures why { IfErr result (λ fault. IsRefusedFor fault (book_of pass.new.seat.me.0)) }
{
    match accept(rt, shared, pass) {
        Ok(taken) => Ok(Some(taken)),
        Err(AcceptFault::Halted) => Err(BoardFault::Halted),
        Err(AcceptFault::NoMemory) => Err(BoardFault::NoMemory),
        Err(AcceptFault::NoChild) => Ok(None),
        Err(AcceptFault::NoSlot) => Ok(None),
    }
}

/// A connection that was just taken waits for its first request, where the front watches it; else it is closed. Where its wait is refused it is
/// closed too.
pub fn settle<R: Wait, L: Link, N: Known>(
    rt: &R,
    shared: &Shared<Board<L, N>>,
    pass: &mut Pass<Board<L, N>>,
    taken: Taken,
    conn: Conn<L, N>,
    watched: bool,
) -> Result<(), BoardFault>
    requires own { pass.old.seat.table_id ≡ shared.now.table.shared.table_id }
    requires listener { IsListener pass.old.seat.me }
    requires taken { (arrival : ℕ)
        × HasTaken pass.old.seat.me.0 taken.name taken.child taken.generation arrival
        × IfSome conn.told (λ t. t.rank ≡ arrival) }
    requires is_new { IsNew taken.name taken.child taken.generation conn }
    requires serves { ServesNewest N.known pass.old.seat.me.0 conn.reader.limits conn.site }
    requires failed { watched ≡ false → 0 < conn.counts.faults }
    ensures own { pass.new.seat.table_id ≡ pass.old.seat.table_id }
    ensures listener { IsListener pass.new.seat.me }
    ensures left { OnOk result (HadATurn (left_events (way_of watched) taken.name)
        pass.old.seat.me.0 pass.new.seat.me.0) }
    ensures refused { IfErr result
        (λ fault. RefusedWait fault (give_up_events fault taken.name) pass.old.seat.me.0
        pass.new.seat.me.0) }
    ensures waited { IfErr result (λ _. watched ≡ true) }
    ensures none { pass.new.seat.me.0.row ≡ None }
    ensures credits { pass.new.seat.me.0.credits ≡ pass.old.seat.me.0.credits }
    ensures rest { LeavesAlone (state_of pass.old.seat.me.0) (state_of pass.new.seat.me.0) }
{
    turns_rest_on_these();
    others_leave_the_rest_to_the_listener();
    waits_are_backed_by_calls();
    conn.show();
    if !watched {
        close(rt, shared, pass, Cause::LinkFailed, Tail::Direct, conn);
        return Ok(());
    }
    match park(rt, shared, pass, Kind::Reading, conn) {
        Ok(()) => Ok(()),
        Err((fault, conn)) => {
            close(rt, shared, pass, given_up_cause(fault), Tail::Direct, conn);
            Err(fault)
        }
    }
}

/// Why a connection ends that is given up for the fault.
fn given_up_cause(fault: BoardFault) -> Cause
    ensures { result ≡ service.given_up_cause fault }
{
    match fault {
        BoardFault::Halted => Cause::Stopped,
        BoardFault::NoMemory => Cause::NoMemory,
    }
}

/// Takes the connection of the link, which the front has just handed out, into a slot, and has the front watch it under its name: then it
/// waits. Where the table refuses it the front turns the link away, and where the front can't watch it its connection is closed.
pub fn take<R: Wait, L: Link, N: Known, F: Front<L = L>>(
    rt: &R,
    alloc: Global,
    shared: &Shared<Board<L, N>>,
    pass: &mut Pass<Board<L, N>>,
    front: &mut F,
    link: L,
    limits: Limits,
    site: Arc<Site>,
) -> Result<(), BoardFault>
    requires own { pass.old.seat.table_id ≡ shared.now.table.shared.table_id }
    requires listener { IsListener pass.old.seat.me }
    requires none { pass.old.seat.me.0.row ≡ None }
    requires fresh { IfSome (L.seen link).told IsFresh }
    requires client { IsOfClient N.known (L.seen link).told }
    requires arrival { IfSome (L.seen link).told
        (λ t. t.rank ≡ (state_of pass.old.seat.me.0).accepted) }
    requires serves { ServesNewest N.known pass.old.seat.me.0 limits site.value }
    ensures own { pass.new.seat.table_id ≡ pass.old.seat.table_id }
    ensures listener { IsListener pass.new.seat.me }
    ensures takes { OnOk result (TakesLink (L.seen link).told (F.seen front.old)
        (F.seen front.new) pass.old.seat.me.0 pass.new.seat.me.0) }
    ensures fails { IfErr result
        (λ fault. FailsTaking fault (L.seen link).told (F.seen front.old) (F.seen front.new)
        pass.old.seat.me.0 pass.new.seat.me.0) }
    ensures no_row { pass.new.seat.me.0.row ≡ None }
    ensures credits { pass.new.seat.me.0.credits ≡ pass.old.seat.me.0.credits }
    ensures rest { LeavesAlone (record (state_of pass.old.seat.me.0)
        { accepted = (state_of pass.new.seat.me.0).accepted }) (state_of pass.new.seat.me.0) }
{
    generations_keep_their_editions();
    let mut link = link;
    let taken = match accept_one(rt, shared, pass) {
        Ok(taken) => taken,
        Err(fault) => {
            front.turn_away(link);
            return Err(fault);
        }
    };
    let watched = front.watch(taken.name, &mut link);
    let conn = Conn::new(
        alloc,
        taken.name,
        taken.child,
        taken.generation,
        limits,
        site,
        link,
    );
    settle(rt, shared, pass, taken, conn, watched)
}
