//! Laws of the outside: what follows for each store and each link from the clauses of their traits. Each is the contract of
//! a function that does nothing.
ghost use Rattle.std.specs.Prelude.{◌≡◌, ℕ, ◌<◌, Bool, List, Result};
ghost use Rattle.mpm_base.specs.Link.{LinkTold, fresh_link, after_read, after_shut};
ghost use Rattle.mpm_base.specs.Store.{StoreTold, StoreCounts, StoreSeen, ReadsFile, ListsNames, IsOutcome, telling_store};
ghost use Rattle.mpm_base.specs.declared.link.Got.{Got};
ghost use Rattle.mpm_base.specs.declared.store.Content.{Content};
ghost use Rattle.mpm_base.specs.declared.store.StoreFault.{StoreFault};

/// Of one store that tells its files, two reads of a file have one outcome, and so have two listings of a folder: where
/// neither call failed, nor memory lacked, they answer the same.
pub fn told_stores_have_one_outcome()
    ensures read { (told : StoreTold) (c d : StoreCounts) (new new' : StoreSeen) (name : List ℕ)
        (most : ℕ) (one other : Result Content StoreFault)
        → ReadsFile (telling_store told c) new name most one
        → ReadsFile (telling_store told d) new' name most other
        → IsOutcome one → IsOutcome other → one ≡ other }
    ensures names { (told : StoreTold) (c d : StoreCounts) (new new' : StoreSeen) (folder : List ℕ)
        (most : ℕ) (one other : Result (List (List ℕ)) StoreFault)
        → ListsNames (telling_store told c) new folder most one
        → ListsNames (telling_store told d) new' folder most other
        → IsOutcome one → IsOutcome other → one ≡ other }
{}

/// What a link tells of the bytes before its half-close is what was received until then: it is all that was received
/// while the link wasn't half-closed, and no half-close and no later read changes it.
pub fn bytes_before_a_half_close_stay()
    ensures fresh { (number : ℕ) (bytes : List ℕ)
        → (fresh_link number bytes).before_shut ≡ (fresh_link number bytes).received }
    ensures grows { (answer : Got) (told : LinkTold) → told.shuts ≡ 0
        → told.before_shut ≡ told.received
        → (after_read answer told).before_shut ≡ (after_read answer told).received }
    ensures shut { (answer : Bool) (told : LinkTold)
        → (after_shut answer told).before_shut ≡ told.before_shut }
    ensures stays { (answer : Got) (told : LinkTold) → 0 < told.shuts
        → (after_read answer told).before_shut ≡ told.before_shut }
{}
