//! A turn that is held until another thread asks for it.
ghost use Rattle.std.specs.Prelude.{◌≡◌};
ghost use Rattle.board_lock.specs.Passes.{HasNoTurn};

use board_lock::{Pass, Shared};
use conn_machine::Kept;
use std::sync::Wait;
use std::sync::atomic::{AtomicU64, Ordering};
use std::thread;
use std::time::{Clock, Duration};

/// How long a turn is held once another thread is about to ask for it, in milliseconds: longer than a thread tries before it sleeps.
const HELD: u64 = 200;

/// The turn is held.
pub const HAS_TURN: u64 = 1;

/// Another thread is about to ask for it.
pub const ASKS: u64 = 2;

/// Waits until so much was said.
pub fn wait_for<R: Wait>(rt: &R, said: &AtomicU64, least: u64) {
    for _ in rt.forever() {
        if least <= said.load(Ordering::SeqCst) {
            return;
        }
        thread::yield_now();
    }
    unreachable!()
}

/// A turn that adds nothing. The pass says that it has it, waits until another thread says that it asks for it, and holds it so long
/// then that this one sleeps: how many entries there ever were.
pub fn holds<K: Kept, R: Wait + Clock>(
    rt: &R,
    shared: &Shared<K>,
    pass: &mut Pass<K>,
    said: &AtomicU64,
) -> u64
    requires own { pass.old.seat.table_id ≡ shared.now.table.shared.table_id }
    requires free { HasNoTurn pass.old.seat.me }
    ensures own { pass.new.seat.table_id ≡ pass.old.seat.table_id }
    ensures free { HasNoTurn pass.new.seat.me }
{
    let turn = shared.turn(rt, pass);
    said.store(HAS_TURN, Ordering::SeqCst);
    wait_for(rt, said, ASKS);
    thread::sleep(rt, Duration::from_millis(HELD));
    let count = turn.kept.length();
    shared.done(pass, turn);
    count
}
