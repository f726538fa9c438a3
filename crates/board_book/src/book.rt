//! The history that a board keeps, and the state after it.
//! Why it is so stands in docs/DECISIONS.md: 53, When a history may be folded.
ghost use Rattle.std.specs.Prelude.{◌≡◌, ◌+◌, ◌<◌, ◌≤◌, ◌^◌, ℕ, List, true, false, [], ◌∷◌, ◌++◌, length, vec_len, vec_capacity, IfOk, IfErr, OnOk, OnErr};
ghost use Rattle.mpm_base.specs.Shape.{is_in_bounds};
ghost use Rattle.conn_machine.specs.States.{is_halted, opening_state};
ghost use Rattle.conn_machine.specs.Table.{is_allowed, note_made, reply};
ghost use Rattle.conn_machine.specs.Runs.{IsInPassOrderFrom, Run, after, first_row, has_after, may_make};
ghost use Rattle.conn_machine.specs.Folds.{CountsWithin, HasPlacesFor, HaveBegun, lines_after, may_fold, opening_record};
ghost use Rattle.conn_machine.specs.Made.{AreMade, AreOfPasses};
ghost use Rattle.conn_machine.specs.Passes.{EachHasItsOwn};
ghost use Rattle.conn_machine.specs.Sizes.{IsSized};
ghost use Rattle.conn_machine.specs.Sound.{IsSound};
ghost use Rattle.board_book.specs.AheadInside.{IsAhead};
ghost use Rattle.board_book.specs.BookInside.{lines_then};
ghost use Rattle.board_book.specs.Book.{AddsOnly, book_with_entry, folded_book, numbered_entry, row_in};
ghost use Rattle.board_book.specs.Editions.{KeepsEditions, UsedHaveEditions, orders_in};
ghost use Rattle.conn_machine.specs.declared.event.Event.TheVariants as event;
ghost use Rattle.board_book.specs.Decided.{IsDecided};
ghost use Rattle.board_book.specs.Faults.{IsRefusedFor};
ghost use Rattle.board_book.specs.FaultsInside.{IsRecorded};
ghost use Rattle.board_book.specs.RoomInside as spec;
ghost use Rattle.board_book.specs.RoomInside.{is_sure};

use crate::ahead::Ahead;
use crate::editions::KnownEditions;
use crate::faults::BoardFault;
use crate::filed::{FiledState, step, step_and_note};
use conn_machine::laws::{each_pass_has_its_own_connection, events_keep_states_sound};
use conn_machine::laws_of_runs::{
    folds_are_one_fold, generations_begin_in_order, histories_go_on_by_one_entry,
    passes_add_entries, records_go_on_by_folds, records_open_with_nothing,
    rows_change_one_at_a_time,
};
use conn_machine::{Entry, Event, Folded, Reply, State, Stepped};
use mpm_base::{Ask, ConnName, NoMemory, Note, Octets, Shape};
use std::alloc::Global;
use std::marker::Model;
use std::snapshot::Snapshot;

/// Fewer entries than these may have been folded before a fold: 2 to the 62nd.
const MOST_FOLDED: u64 = 4_611_686_018_427_387_904;

/// So many entries at most are counted, folded and kept ones together: 2 to the 63rd, less 1.
const MOST_ENTRIES: u64 = 9_223_372_036_854_775_807;

/// A history of the machine, the state before it, which only contracts see, and the state after it; and what is known of the entries before
/// that.
#[derive(Drop)]
pub struct Book {
    alloc: Global,
    base: Snapshot<State>,
    folded: Folded,
    history: Vec<Entry>,
    state: FiledState,
    ahead: Ahead,
    editions: KnownEditions,
}

impl Model for Book {
    ghost use Rattle.std.specs.Prelude.{length, vec_capacity};
    ghost use Rattle.board_book.specs.Book.{SeenBook};
    ghost use Rattle.board_book.specs.BookInside.{IsKept};

    ghost Value = { SeenBook };

    ghost view = { λ b. record {
      base = b.base.value;
      folded = b.folded;
      history = b.history.items;
      state = b.state;
      passes = length b.folded.ordinals;
    } };

    ghost invariant = { λ b. IsKept (length b.folded.ordinals) b.base.value b.folded b.history.items
        b.state b.ahead b.editions.items.items (vec_capacity b.history) };
}

impl Book {
    /// An empty history, with the room that stopping the server needs.
    pub fn open(
        alloc: Global,
        slots: u32,
        children: u32,
        passes: u32,
        shape: Shape,
    ) -> Result<Book, NoMemory>
        requires slots { slots ≤ 8192 }
        requires children { children ≤ 32 }
        requires shape { is_in_bounds shape ≡ true }
        ensures base { IfOk result (λ book. book.base ≡ opening_state slots children shape) }
        ensures folded { IfOk result (λ book. book.folded ≡ opening_record passes) }
        ensures history { IfOk result (λ book. book.history ≡ []) }
        ensures state { IfOk result (λ book. book.state ≡ opening_state slots children shape) }
        ensures passes { IfOk result (λ book. book.passes ≡ passes) }
    {
        events_keep_states_sound();
        each_pass_has_its_own_connection();
        folds_are_one_fold();
        records_open_with_nothing();
        let folded = Folded::opening(alloc, passes)?;
        let ahead = Ahead::first(alloc, passes)?;
        let editions = KnownEditions::first(alloc)?;
        let Ok(history) = Vec::with_capacity(alloc, 1) else {
            return Err(NoMemory);
        };
        // the state comes last, so that no way out lets go of it
        let state = FiledState::opening(alloc, slots, children, shape)?;
        Ok(Book {
            alloc,
            base: Snapshot::of(state.state()),
            folded,
            history,
            state,
            ahead,
            editions,
        })
    }

    /// The state after the history.
    pub fn state(&self) -> &State
        ensures { result.now ≡ self.now.state }
    {
        self.state.state()
    }

    /// The same with the rings of its slots.
    pub fn filed(&self) -> &FiledState
        ensures { result.now ≡ self.now.state }
    {
        &self.state
    }

    /// The entries, oldest first.
    pub fn history(&self) -> &[Entry]
        ensures { result.now ≡ self.now.history }
    {
        self.history.as_slice()
    }

    /// What is known of the entries that were folded.
    pub fn folded(&self) -> &Folded
        ensures { result.now ≡ self.now.folded }
    {
        &self.folded
    }

    /// The history is one of the machine, from its base to its state, in the order of its passes behind what was folded; each entry is
    /// one that its pass, one of so many, may make, and before the first of them each pass had a connection of its own, or none. The
    /// record of what was folded has a place for each pass, counts within its entries, and can count those of the history too.
    pub fn show(&self)
        ensures places { HasPlacesFor self.now.passes self.now.folded }
        ensures within { CountsWithin self.now.folded }
        ensures countable { self.now.folded.entries + length self.now.history < 2 ^ 63 }
        ensures run { Run self.now.base self.now.history }
        ensures order { IsInPassOrderFrom self.now.folded self.now.history }
        ensures made { AreMade self.now.base self.now.folded self.now.history }
        ensures few { AreOfPasses self.now.passes self.now.history }
        ensures own { EachHasItsOwn self.now.base (first_row self.now.folded) }
        ensures state { after self.now.base self.now.history ≡ self.now.state }
        ensures opened { IsSound self.now.base }
        ensures sound { IsSound self.now.state }
        ensures sized { IsSized self.now.state }
    {
        let _ = &self.history;
    }

    /// The editions of the record are of generations that had begun before the history, and each generation in use has an edition.
    pub fn show_editions(&self)
        ensures begun { HaveBegun self.now.base self.now.folded }
        ensures used { UsedHaveEditions self.now }
    {
        generations_begin_in_order();
        let _ = &self.history;
    }

    /// How many commands `graceful` were taken or refused.
    pub fn orders(&self) -> u64
        ensures { result ≡ orders_in self.now }
    {
        self.ahead.orders(&self.folded, self.history.as_slice())
    }

    /// Whether the history may be folded.
    pub fn can_fold(&self) -> bool
        ensures { result ≡ may_fold self.now.folded self.now.history }
    {
        self.folded.entries < MOST_FOLDED
            && self.ahead.is_heavy(&self.folded, self.history.as_slice())
    }

    /// Folds the history, where the record takes on these lines, or none. Takes memory for the editions of the generations in use, and keeps
    /// the room that was taken.
    pub fn fold(&mut self, lines: Option<Octets>) -> Result<(), NoMemory>
        requires { may_fold self.old.folded self.old.history ≡ true }
        ensures ok { (ended : List (List ℕ))
            → lines_then lines self.old.folded.lines
            ≡ lines_after ended self.old.folded.closed self.old.folded.lines
            → OnOk result (self.new ≡ folded_book ended self.old) }
        ensures err { OnErr result (self.new ≡ self.old) }
    {
        each_pass_has_its_own_connection();
        records_go_on_by_folds();
        folds_are_one_fold();
        generations_begin_in_order();
        let editions = self.editions.in_use(self.alloc, self.state.state())?;
        self.ahead
            .fold_into(&mut self.folded, self.history.as_slice());
        take_on(&mut self.folded.lines, lines);
        self.folded.editions = editions;
        self.editions.keep_in_use(self.state.state());
        self.base = Snapshot::of(self.state.state());
        self.history.clear();
        Ok(())
    }

    /// Records an event that the pass may make, and takes the room for what must follow it. Where it is refused nothing
    /// changes.
    pub fn record(&mut self, who: u32, event: Event) -> Result<Reply, BoardFault>
        requires who { who < self.old.passes }
        requires allowed { is_halted self.old.state.going ≡ false
            → is_allowed self.old.state event ≡ true }
        requires role { may_make who (row_in who self.old) event ≡ true }
        ensures ok { OnOk result (IsRecorded who event self.old self.new) }
        ensures entries { AddsOnly who self.old self.new }
        ensures row { IfOk result
            (λ answer. row_in who self.new ≡ has_after (row_in who self.old) event answer) }
        ensures reply { IfOk result (λ answer. answer ≡ reply self.old.state event) }
        ensures why { IfErr result (λ fault. IsRefusedFor fault self.old) }
        ensures err { OnErr result (self.new ≡ self.old) }
    {
        let stepped = self.record_noting(who, event)?;
        Ok(stepped.reply)
    }

    /// Does the same, and gives the note of the response that was decided too.
    fn record_noting(&mut self, who: u32, event: Event) -> Result<Stepped, BoardFault>
        requires who { who < self.old.passes }
        requires allowed { is_halted self.old.state.going ≡ false
            → is_allowed self.old.state event ≡ true }
        requires role { may_make who (row_in who self.old) event ≡ true }
        ensures ok { OnOk result (IsRecorded who event self.old self.new) }
        ensures entries { AddsOnly who self.old self.new }
        ensures row { IfOk result
            (λ stepped. row_in who self.new
            ≡ has_after (row_in who self.old) event stepped.reply) }
        ensures reply { IfOk result (λ stepped. stepped.reply ≡ reply self.old.state event) }
        ensures note { IfOk result (λ stepped. stepped.note ≡ note_made self.old.state event) }
        ensures why { IfErr result (λ fault. IsRefusedFor fault self.old) }
        ensures err { OnErr result (self.new ≡ self.old) }
    {
        histories_go_on_by_one_entry();
        passes_add_entries();
        rows_change_one_at_a_time();
        generations_begin_in_order();
        if self.state().going.is_halted() {
            return Err(BoardFault::Halted);
        }
        let room = room_with_event(self.state());
        let most = (MOST_ENTRIES - self.folded.entries) as usize;
        if self.history.len().saturating_add(room) > most
            || self.editions.reserve_for(&event).is_err()
            || self.history.reserve(room).is_err()
        {
            return Err(BoardFault::NoMemory);
        }
        let Ok(stepped) = step_and_note(self.alloc, &mut self.state, &event) else {
            return Err(BoardFault::NoMemory);
        };
        let order = self.ahead.orders(&self.folded, self.history.as_slice()) + 1;
        self.editions.add(&event, self.state.state().newest, order);
        append(
            &self.folded,
            &mut self.history,
            &mut self.ahead,
            who,
            event,
            stepped.reply,
        );
        Ok(stepped)
    }

    /// Records that a response is decided, and gives its note, which is made once. Where it is refused nothing changes.
    pub fn answer(&mut self, who: u32, name: ConnName, ask: &Ask) -> Result<Note, BoardFault>
        requires who { who < self.old.passes }
        requires allowed { is_halted self.old.state.going ≡ false
            → is_allowed self.old.state (event.Answer name ask.now) ≡ true }
        requires role { may_make who (row_in who self.old) (event.Answer name ask.now) ≡ true }
        ensures ok { OnOk result (IsRecorded who (event.Answer name ask.now) self.old self.new) }
        ensures note { IfOk result (IsDecided self.old.state name ask.now) }
        ensures entries { AddsOnly who self.old self.new }
        ensures row { row_in who self.new ≡ row_in who self.old }
        ensures why { IfErr result (λ fault. IsRefusedFor fault self.old) }
        ensures err { OnErr result (self.new ≡ self.old) }
    {
        let Stepped { reply: _, note } = self.record_noting(who, Event::Answer(name, *ask))?;
        match note {
            Some(note) => Ok(note),
            None => unreachable!(),
        }
    }

    /// Records an event whose room was taken before.
    pub fn record_sure(&mut self, who: u32, event: Event) -> Reply
        requires who { who < self.old.passes }
        requires allowed { is_allowed self.old.state event ≡ true }
        requires sure { is_sure event ≡ true }
        requires role { may_make who (row_in who self.old) event ≡ true }
        ensures is { self.new ≡ book_with_entry who event self.old }
        ensures keeps { KeepsEditions self.old (book_with_entry who event self.old) }
        ensures entries { AddsOnly who self.old self.new }
        ensures row { row_in who self.new ≡ has_after (row_in who self.old) event result }
        ensures reply { result ≡ reply self.old.state event }
    {
        histories_go_on_by_one_entry();
        passes_add_entries();
        generations_begin_in_order();
        let Ok(reply) = step(self.alloc, &mut self.state, &event) else {
            unreachable!()
        };
        append(
            &self.folded,
            &mut self.history,
            &mut self.ahead,
            who,
            event,
            reply,
        );
        reply
    }
}

/// Takes these lines in place of those that there are, where there are such.
fn take_on(lines: &mut Octets, more: Option<Octets>)
    ensures { lines.new ≡ lines_then more lines.old }
{
    if let Some(more) = more {
        *lines = more;
    }
}

/// Puts the pass's entry at the end, with its next number, and counts it.
fn append(
    folded: &Folded,
    history: &mut Vec<Entry>,
    ahead: &mut Ahead,
    who: u32,
    event: Event,
    reply: Reply,
)
    requires room { vec_len history.old < vec_capacity history.old }
    requires who { who < length folded.now.ordinals }
    requires places { HasPlacesFor (length folded.now.ordinals) folded.now }
    requires within { CountsWithin folded.now }
    requires countable { folded.now.entries + length history.old.items < 2 ^ 63 }
    requires ahead { IsAhead folded.now history.old.items ahead.old }
    ensures history { history.new.items
        ≡ history.old.items ++ numbered_entry who event reply folded.now history.old.items ∷ [] }
    ensures ahead { IsAhead folded.now history.new.items ahead.new }
    ensures room { vec_capacity history.old ≤ vec_capacity history.new }
{
    let entry = Entry {
        pass: who,
        ordinal: ahead.next_number(folded, history.as_slice(), who),
        event,
        reply,
    };
    ahead.add(folded, history.as_slice(), &entry);
    match history.push(entry) {
        Ok(()) => (),
        Err(_) => unreachable!(),
    }
}

/// For how many entries an event takes room: for its own, and for what must follow it.
fn room_with_event(state: &State) -> usize
    requires few_rows { length state.now.rows ≤ 8192 }
    requires few_children { length state.now.children ≤ 32 }
    ensures { result ≡ spec.room_with_event state.now }
{
    let live = state.rows.live_count();
    4 * (live + 1) + state.children.len() + 2
}
