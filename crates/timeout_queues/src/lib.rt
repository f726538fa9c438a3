//! The timeout queues: which connections are parked, what each waits for, and until when.
//!
//! Contracts see the queues as a map from the parked names to kind and deadline. The name that `overdue`
//! answers is late, and none has an earlier deadline. All memory is taken by `make`, so that a connection
//! in hand can always be parked. The names of each kind stand in a ring, in the order of their deadlines, so
//! no call but `make` goes over the slots. `park` puts a name that is due last at the end, and one that is parked again with the
//! deadline that it had goes back to where it was taken out; only another one looks for its place among the names of its kind that
//! are due later. The definitions stand in `specs/Waiting.antt`.
//!
//! Rings of slots say of each slot in which ring it stands, and find one that stands in a ring without a look at the
//! others. Their definitions stand in `specs/Filed.antt`. Of several that would do both answer the one that waited longest, though
//! no clause says it.
//! Why it is so stands in docs/DECISIONS.md: 46, What a look at the timeout queues costs.
#![tactic(auto)]

ghost use Rattle.std.specs.Prelude.{◌≡◌, ◌+◌, ◌<◌, ◌≤◌, ◌↔◌, ◌⊎◌, [], map, length, Some, None, option_map, is_some, IsTrue, IsNone, IfSome, IsSomeAnd, IfOk, slice_index_or};
ghost use Rattle.std.specs.Bool.{OnTrue, OnFalse};
ghost use Rattle.timeout_queues.specs.declared.Due.{Due};
ghost use Rattle.timeout_queues.specs.Entries.{parked_in};
ghost use Rattle.timeout_queues.specs.RingsInside.{by_kind, ring_number, ring_at, due_at, IsRings, IsBack, IsLastBefore, IsFirstOf, IsDueFrom};
ghost use Rattle.timeout_queues.specs.Waiting.{nothing_parked, IsFree, parked_of, parked_as, with_parked, without_name, Updates, overdue_at, least_deadline, IsPastDeadline, deadline_of};

mod hints;
mod rings;
mod slot_rings;
mod turns;

use hints::Hints;
use mpm_base::{ConnName, Kind, Moment, NoMemory};
use rings::Rings;
pub use slot_rings::SlotRings;
use std::alloc::Global;
use std::marker::Model;
use turns::Turns;

// How many kinds there are, each with a ring of its own.
const KINDS: u32 = 5;

// How many places are looked at near that where a name was taken out.
const LOOKS: u32 = 64;

/// The timeout queues, as contracts see them: of each slot what is parked in it.
#[derive(Drop)]
pub struct Queues {
    slots: Vec<Option<Entry>>,
    // The places are the slots, and behind them the heads of the rings.
    rings: Rings,
    hints: Hints,
    turns: Turns,
}

#[derive(Clone, Copy)]
struct Entry {
    life: u32,
    kind: Kind,
    deadline: Moment,
}

// A parked name with its deadline.
#[derive(Clone, Copy)]
struct Due {
    name: ConnName,
    deadline: Moment,
}

impl Model for Queues {
    ghost use Rattle.std.specs.Prelude.{List, Option, map};
    ghost use Rattle.timeout_queues.specs.Waiting.{ParkedName};

    ghost Value = { List (Option ParkedName) };

    ghost use Rattle.timeout_queues.specs.Entries.{parked_in};
    ghost use Rattle.timeout_queues.specs.RingsInside.{IsRings, by_kind};

    ghost view = { λ q. map parked_in q.slots.items };

    ghost invariant = { λ q. IsRings by_kind (map parked_in q.slots.items) q.rings.before.items
        q.rings.behind.items };
}

impl Queues {
    /// The queues of so many slots, with no parked name. No later call needs memory.
    pub fn make(alloc: Global, slots: u32) -> Result<Queues, NoMemory>
        requires some { 1 ≤ slots }
        requires few { slots ≤ 8192 }
        ensures { IfOk result (λ queues. queues ≡ nothing_parked slots) }
    {
        let Ok(mut kept) = Vec::with_capacity(alloc, slots as usize) else {
            return Err(NoMemory);
        };
        for _ in 0..slots {
            kept.push_reserved(None);
        }
        Ok(Queues {
            slots: kept,
            rings: Rings::make(alloc, slots + KINDS)?,
            hints: Hints::make(alloc, slots)?,
            turns: Turns::make(alloc, slots)?,
        })
    }

    /// Whether no name of the slot is parked, so that one can be.
    pub fn is_free(&self, slot: u32) -> bool
        ensures { IsTrue result ↔ IsFree self.now slot }
    {
        matches!(self.slots.get(slot as usize), Some(None))
    }

    /// Parks the name until the deadline.
    pub fn park(&mut self, name: ConnName, kind: Kind, deadline: Moment)
        requires { IsFree self.old name.slot }
        ensures parked { self.new ≡ with_parked self.old name kind deadline }
        ensures updates { Updates self.old self.new name (Some (parked_as name kind deadline)) }
    {
        let head = head_of(self.slots.len() as u32, kind);
        let place = last_before(
            &self.slots,
            &self.rings,
            &self.hints,
            head,
            name.slot,
            deadline,
        );
        self.rings.insert(place, name.slot);
        self.turns.note(name.slot);
        self.slots[name.slot as usize] = Some(Entry {
            life: name.life,
            kind,
            deadline,
        });
    }

    /// Takes a parked name out, and says whether it was parked.
    pub fn unpark(&mut self, name: ConnName) -> bool
        ensures found { result ≡ is_some (parked_of self.old name) }
        ensures unparked { OnTrue result (self.new ≡ without_name self.old name) }
        ensures unchanged { OnFalse result (self.new ≡ self.old) }
        ensures updates { Updates self.old self.new name None }
    {
        if !self.is_parked(name) {
            return false;
        }
        let before = self.rings.before[name.slot as usize];
        self.hints.note(name.slot, before);
        self.rings.remove(name.slot);
        self.slots[name.slot as usize] = None;
        true
    }

    /// A name with the least deadline, where that is at or before `now`: a deadline exactly now is late.
    pub fn overdue(&self, now: Moment) -> Option<ConnName>
        ensures none { IsNone result ↔ (overdue_at now self.now ≡ []) }
        ensures late { IfSome result (IsPastDeadline self.now now) }
        ensures first { IfSome result
            (λ name. deadline_of self.now name ≡ least_deadline self.now) }
    {
        match self.first() {
            Some(first) if first.deadline <= now => Some(first.name),
            _ => None,
        }
    }

    /// The least deadline of the parked names.
    pub fn next_deadline(&self) -> Option<Moment>
        ensures { result ≡ least_deadline self.now }
    {
        match self.first() {
            Some(first) => Some(first.deadline),
            None => None,
        }
    }

    fn is_parked(&self, name: ConnName) -> bool
        ensures { result ≡ is_some (parked_of self.now name) }
    {
        match self.slots.get(name.slot as usize) {
            Some(Some(entry)) => entry.life == name.life,
            _ => false,
        }
    }

    // A parked name with the least deadline: the first of its ring.
    fn first(&self) -> Option<Due>
        ensures least { option_map (λ (due : Due). due.deadline) result ≡ least_deadline self.now }
        ensures parked { IfSome result
            (λ (due : Due). deadline_of self.now due.name ≡ Some due.deadline) }
    {
        let mut first: Option<Due> = None;
        for number in 0..KINDS {
            first = earlier(&self.turns, first, self.first_in(number));
        }
        first
    }

    // The first of the ring of this number.
    fn first_in(&self, number: u32) -> Option<Due>
        requires { number < 5 }
        ensures { IsFirstOf self.now (λ n. n ≡ number) result }
    {
        let head = self.slots.len() as u32 + number;
        let slot = self.rings.behind[head as usize];
        match kept_at(&self.slots, slot) {
            Some(entry) => Some(Due {
                name: ConnName {
                    slot,
                    life: entry.life,
                },
                deadline: entry.deadline,
            }),
            None => None,
        }
    }
}

// The head of a kind's ring, where there are so many slots.
fn head_of(slots: u32, kind: Kind) -> u32
    requires { slots ≤ 8192 }
    ensures { result ≡ slots + ring_number kind }
{
    match kind {
        Kind::Reading => slots,
        Kind::KeepAlive => slots + 1,
        Kind::Writing => slots + 2,
        Kind::Linger => slots + 3,
        Kind::ShortLinger => slots + 4,
    }
}

// What is parked in a slot, and nothing at the head of a ring.
fn kept_at(slots: &[Option<Entry>], place: u32) -> Option<Entry>
    ensures { result ≡ slice_index_or slots.now place None }
{
    match slots.get(place as usize) {
        Some(kept) => *kept,
        None => None,
    }
}

// The deadline of what is parked in a slot, and 0 at the head of a ring.
fn deadline_at(slots: &[Option<Entry>], place: u32) -> Moment
    ensures { result ≡ due_at by_kind (map parked_in slots.now) place }
{
    match kept_at(slots, place) {
        Some(entry) => entry.deadline,
        None => 0,
    }
}

// The last of a ring whose deadline is at or before this one, found by going back from the end, or from where the name of the slot was
// taken out, as far as that is a place behind which all is due at or after it.
fn last_before(
    slots: &[Option<Entry>],
    rings: &Rings,
    hints: &Hints,
    head: u32,
    slot: u32,
    deadline: Moment,
) -> u32
    requires rings { IsRings by_kind (map parked_in slots.now) rings.now.before.items
        rings.now.behind.items }
    requires head { (length slots.now ≤ head) × (head < length slots.now + 5) }
    ensures { IsLastBefore by_kind (map parked_in slots.now) rings.now.behind.items head deadline
        result }
{
    let mut place = back_from(slots, rings, hints, head, slot, deadline);
    while deadline_at(slots, place) > deadline {
        place = rings.before[place as usize];
    }
    place
}

// A place of the ring behind which all is due at or after the deadline: where what stands last is due later one near that where the name of
// the slot was taken out, if there is such a one, and else the end.
fn back_from(
    slots: &[Option<Entry>],
    rings: &Rings,
    hints: &Hints,
    head: u32,
    slot: u32,
    deadline: Moment,
) -> u32
    requires rings { IsRings by_kind (map parked_in slots.now) rings.now.before.items
        rings.now.behind.items }
    requires head { (length slots.now ≤ head) × (head < length slots.now + 5) }
    ensures { IsBack (map parked_in slots.now) rings.now.behind.items head deadline result }
{
    let last = rings.before[head as usize];
    if deadline_at(slots, last) > deadline {
        if let Some(place) = found_again(slots, rings, hints, head, slot, deadline) {
            return place;
        }
    }
    last
}

// The place behind which the name of the slot was taken out, or one near it: due at or before the deadline, and all behind it at or after
// it. Where the name that stood there was taken out too, or is due later now, that is looked for behind which that one was taken out; and
// where some were put in there meanwhile, behind these. None where it isn't found in so many looks.
fn found_again(
    slots: &[Option<Entry>],
    rings: &Rings,
    hints: &Hints,
    head: u32,
    slot: u32,
    deadline: Moment,
) -> Option<u32>
    requires rings { IsRings by_kind (map parked_in slots.now) rings.now.before.items
        rings.now.behind.items }
    requires head { length slots.now ≤ head }
    ensures { IfSome result
        (IsBack (map parked_in slots.now) rings.now.behind.items head deadline) }
{
    let mut place = hints.get(slot);
    for _ in 0..LOOKS {
        let is_before = deadline_at(slots, place) <= deadline;
        if is_before && is_back(slots, rings, head, place, deadline) {
            return Some(place);
        }
        place = if is_before && is_in_ring(slots, head, place) {
            place_behind(rings, head, place)
        } else {
            hints.get(place)
        };
    }
    None
}

// The place that stands behind this one.
fn place_behind(rings: &Rings, head: u32, place: u32) -> u32 {
    match rings.behind.get(place as usize) {
        Some(next) => *next,
        None => head,
    }
}

// Whether the place is in the ring, and what stands behind it is due at or after the deadline.
fn is_back(slots: &[Option<Entry>], rings: &Rings, head: u32, place: u32, deadline: Moment) -> bool
    requires rings { IsRings by_kind (map parked_in slots.now) rings.now.before.items
        rings.now.behind.items }
    requires head { length slots.now ≤ head }
    ensures { OnTrue result
        (IsBack (map parked_in slots.now) rings.now.behind.items head deadline place) }
{
    if (place as usize) < rings.behind.len() && is_in_ring(slots, head, place) {
        let next = rings.behind[place as usize];
        is_due_from(slots, next, deadline)
    } else {
        false
    }
}

// Whether the place is in the ring of that head.
fn is_in_ring(slots: &[Option<Entry>], head: u32, place: u32) -> bool
    requires few { length slots.now ≤ 8192 }
    requires head { length slots.now ≤ head }
    ensures { OnTrue result (ring_at by_kind (map parked_in slots.now) place ≡ Some head) }
{
    match kept_at(slots, place) {
        Some(entry) => head_of(slots.len() as u32, entry.kind) == head,
        None => place == head,
    }
}

// Whether what is parked in a slot is due at or after the deadline; so it is at the head of a ring.
fn is_due_from(slots: &[Option<Entry>], place: u32, deadline: Moment) -> bool
    ensures { OnTrue result (IsDueFrom (map parked_in slots.now) deadline place) }
{
    match kept_at(slots, place) {
        Some(entry) => deadline <= entry.deadline,
        None => true,
    }
}

// The due of the two that comes first; where both have one deadline the one that was parked first.
fn earlier(turns: &Turns, former: Option<Due>, other: Option<Due>) -> Option<Due>
    ensures former { IfSome former
        (λ (due : Due). IsSomeAnd result (λ (first : Due). first.deadline ≤ due.deadline)) }
    ensures other { IfSome other
        (λ (due : Due). IsSomeAnd result (λ (first : Due). first.deadline ≤ due.deadline)) }
    ensures either { (result ≡ former) ⊎ (result ≡ other) }
{
    match (former, other) {
        (Some(former), Some(other)) if other.deadline < former.deadline => Some(other),
        (Some(former), Some(other))
            if other.deadline == former.deadline
                && turns.is_before(other.name.slot, former.name.slot) => { Some(other) }
        (None, other) => other,
        (former, _) => former,
    }
}
