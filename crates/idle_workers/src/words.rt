//! The calls on idle words.
//! Why it is so stands in docs/DECISIONS.md: 60, What a call found on an idle word; 67, A permit is given back by its child's number.
ghost use Rattle.std.specs.Prelude.{◌≡◌, ◌<◌, Some, None, IsSome, slice_index};
ghost use Rattle.idle_workers.specs.Found.{FoundIdle, GivesCredit, MayCredit, ReleasesPermit, ReservesPermit, TakesCreditBack};
ghost use Rattle.table_rule.specs.Views.{IsIdle};

use board_lock::{Carrier, Pass, Shared};
use conn_machine::Kept;
use table_rule::{BIAS, CreditStep, IdleStep, ReleaseStep, TryStep, UncreditStep, UndoStep, laws};

/// Reserves a worker of the child: whether the carrier has a permit of it now. It has none exactly where the word was at or
/// below the bias; then its try was undone.
pub fn reserve<K: Kept>(shared: &Shared<K>, carrier: &mut Carrier<K>, child: u32) -> bool
    requires own { carrier.old.seat.table_id ≡ shared.now.table.shared.table_id }
    requires child { child < 32 }
    requires free { IsIdle carrier.old.seat.me.0 }
    ensures own { carrier.new.seat.table_id ≡ carrier.old.seat.table_id }
    ensures hand { carrier.new.seat.me.1 ≡ carrier.old.seat.me.1 }
    ensures reserved { ReservesPermit child carrier.old.seat.me.0 result carrier.new.seat.me.0 }
{
    let table = &shared.table.shared;
    let word = child as usize + 2;
    laws::permit_is_tried_for::<K>();
    let found = table.fetch_sub::<TryStep>(&mut carrier.seat, word, 1);
    if found > BIAS {
        return true;
    }
    laws::try_is_undone::<K>();
    let _ = table.fetch_add::<UndoStep>(&mut carrier.seat, word, 1);
    false
}

/// Gives the permit of the child back.
pub fn release<K: Kept>(shared: &Shared<K>, carrier: &mut Carrier<K>, child: u32)
    requires own { carrier.old.seat.table_id ≡ shared.now.table.shared.table_id }
    requires child { child < 32 }
    requires permit { carrier.old.seat.me.0.hand.permit ≡ Some child }
    requires row { carrier.old.seat.me.0.row ≡ None }
    ensures own { carrier.new.seat.table_id ≡ carrier.old.seat.table_id }
    ensures hand { carrier.new.seat.me.1 ≡ carrier.old.seat.me.1 }
    ensures released { ReleasesPermit child carrier.old.seat.me.0 carrier.new.seat.me.0 }
{
    let table = &shared.table.shared;
    laws::permit_is_released::<K>();
    let _ = table.fetch_add::<ReleaseStep>(&mut carrier.seat, child as usize + 2, 1);
}

/// How many workers of the child nobody has a permit of, less those that are tried for just now. The pass has seen the history of that
/// moment then, behind which at least so many of them carry no connection.
pub fn idle<K: Kept>(shared: &Shared<K>, pass: &mut Pass<K>, child: u32) -> u32
    requires own { pass.old.seat.table_id ≡ shared.now.table.shared.table_id }
    requires child { child < 32 }
    ensures own { pass.new.seat.table_id ≡ pass.old.seat.table_id }
    ensures hand { pass.new.seat.me.1 ≡ pass.old.seat.me.1 }
    ensures found { FoundIdle child pass.old.seat.me.0 result pass.new.seat.me.0 }
{
    laws::idle_word_is_looked_at::<K>();
    let found = shared
        .table
        .shared
        .load::<IdleStep>(&mut pass.seat, child as usize + 2);
    found.saturating_sub(BIAS) as u32
}

/// Gives the child the credit of its workers.
pub fn credit<K: Kept>(shared: &Shared<K>, pass: &mut Pass<K>, child: u32, threads: u32)
    requires own { pass.old.seat.table_id ≡ shared.now.table.shared.table_id }
    requires child { child < 32 }
    requires turn { IsSome pass.old.seat.me.0.turn }
    requires may { MayCredit pass.old.seat.me.0 child threads }
    ensures own { pass.new.seat.table_id ≡ pass.old.seat.table_id }
    ensures hand { pass.new.seat.me.1 ≡ pass.old.seat.me.1 }
    ensures credited { GivesCredit child threads pass.old.seat.me.0 pass.new.seat.me.0 }
{
    let table = &shared.table.shared;
    laws::child_is_credited::<K>();
    let _ = table.fetch_add::<CreditStep>(&mut pass.seat, child as usize + 2, threads as u64);
}

/// Takes the credit of the child's workers back: whether it is gone. It stays exactly where the word was another one than the
/// bias and its workers.
pub fn uncredit<K: Kept>(shared: &Shared<K>, pass: &mut Pass<K>, child: u32, threads: u32) -> bool
    requires own { pass.old.seat.table_id ≡ shared.now.table.shared.table_id }
    requires child { child < 32 }
    requires number { pass.old.seat.me.0.who.number ≡ 0 }
    requires credit { slice_index pass.old.seat.me.0.credits child ≡ threads }
    ensures own { pass.new.seat.table_id ≡ pass.old.seat.table_id }
    ensures hand { pass.new.seat.me.1 ≡ pass.old.seat.me.1 }
    ensures uncredited { TakesCreditBack child threads pass.old.seat.me.0 result
        pass.new.seat.me.0 }
{
    let table = &shared.table.shared;
    let full = BIAS + threads as u64;
    laws::child_is_uncredited::<K>();
    table.compare_exchange::<UncreditStep>(&mut pass.seat, child as usize + 2, full, BIAS) == full
}
