//! The numbers of the record that a fold would make of a history, and the load of that. They are kept as entries are added, so that a
//! fold counts no entry, and only drops each.
//! Why it is so stands in docs/DECISIONS.md: 54, The numbers of a record are counted ahead.
ghost use Rattle.std.specs.Prelude.{◌≡◌, ◌+◌, ◌<◌, ◌^◌, ℕ, List, [], ◌∷◌, ◌++◌, length, nat_le, slice_index, IfOk};
ghost use Rattle.conn_machine.specs.Events.{count_events, is_order};
ghost use Rattle.conn_machine.specs.Folds.{CountsWithin, HasPlacesFor, fold_load, fold_of, opening_record};
ghost use Rattle.conn_machine.specs.Made.{AreOfPasses};
ghost use Rattle.conn_machine.specs.Runs as spec;
ghost use Rattle.conn_machine.specs.Runs.{entries_of, load};
ghost use Rattle.conn_machine.specs.declared.state.State.{State};
ghost use Rattle.board_book.specs.AheadInside.{CountsEvent, CountsUpTo, IsAhead};

use conn_machine::laws_of_runs::{
    histories_go_on_by_one_entry, records_go_on_by_folds, records_open_with_nothing,
};
use conn_machine::{Commanded, Entry, Event, Folded, Reply};
use mpm_base::{ConnName, NoMemory};
use std::alloc::Global;

/// The load of a history that is worth a fold.
const FOLD_LOAD: u64 = 65_536;

/// What a fold would make of the numbers of a record. Lines and editions are left out, which are made when it comes.
#[derive(Drop)]
pub struct Ahead {
    accepted: u64,
    closed: u64,
    responses: u64,
    causes: [u64; 9],
    children: u64,
    ticks: u64,
    readies: u64,
    orders: u64,
    ordinals: Vec<u64>,
    rows: Vec<Option<ConnName>>,
    // How many responses of the history keep a page.
    pages: u64,
}

impl Ahead {
    /// The numbers of an empty history behind the opening record, for so many passes.
    pub fn first(alloc: Global, passes: u32) -> Result<Ahead, NoMemory>
        ensures { IfOk result (λ ahead. IsAhead (opening_record passes) [] ahead) }
    {
        records_open_with_nothing();
        let Ok(ordinals) = vec![in alloc; 0u64; passes as usize] else {
            return Err(NoMemory);
        };
        let Ok(rows) = vec![in alloc; None; passes as usize] else {
            return Err(NoMemory);
        };
        Ok(Ahead {
            accepted: 0,
            closed: 0,
            responses: 0,
            causes: [0; 9],
            children: 0,
            ticks: 0,
            readies: 0,
            orders: 0,
            ordinals,
            rows,
            pages: 0,
        })
    }

    /// Whether the history weighs enough to be worth a fold: an entry is 1, and a page 64 more.
    pub fn is_heavy(&self, folded: &Folded, history: &[Entry]) -> bool
        requires { IsAhead folded.now history.now self.now }
        ensures { result ≡ nat_le fold_load (load history.now) }
    {
        let _ = folded;
        let entries = history.len() as u64;
        entries.saturating_add(self.pages.saturating_mul(64)) >= FOLD_LOAD
    }

    /// The number that the next entry of the pass has.
    pub fn next_number(&self, folded: &Folded, history: &[Entry], who: u32) -> u64
        requires ahead { IsAhead folded.now history.now self.now }
        requires who { who < length folded.now.ordinals }
        ensures { result
            ≡ slice_index folded.now.ordinals who + length (entries_of who history.now) }
    {
        let _ = folded;
        let _ = history;
        self.ordinals[who as usize]
    }

    /// How many commands `graceful` were taken or refused.
    pub fn orders(&self, folded: &Folded, history: &[Entry]) -> u64
        requires { IsAhead folded.now history.now self.now }
        ensures { result ≡ folded.now.orders + count_events is_order history.now }
    {
        let _ = folded;
        let _ = history;
        self.orders
    }

    /// Counts the entry, which comes behind the history.
    pub fn add(&mut self, folded: &Folded, history: &[Entry], entry: &Entry)
        requires ahead { IsAhead folded.now history.now self.old }
        requires places { HasPlacesFor (length folded.now.ordinals) folded.now }
        requires pass { entry.now.pass < length folded.now.ordinals }
        requires within { CountsWithin folded.now }
        requires few { folded.now.entries + length history.now < 2 ^ 63 }
        ensures { IsAhead folded.now (history.now ++ entry.now ∷ []) self.new }
    {
        histories_go_on_by_one_entry();
        let _ = folded;
        let _ = history;
        self.count_event(&entry.event);
        let who = entry.pass as usize;
        self.ordinals[who] += 1;
        self.rows[who] = has_after(self.rows[who], &entry.event, entry.reply);
    }

    /// Counts the event among those of its kinds.
    fn count_event(&mut self, event: &Event)
        requires { CountsUpTo (2 ^ 63) self.old }
        ensures { CountsEvent event.now self.old self.new }
    {
        match *event {
            Event::Accept(_) => self.accepted += 1,
            Event::Answer(_, ref ask) => {
                self.responses += 1;
                if ask.page {
                    self.pages += 1;
                }
            }
            Event::Close(_, why, _) => {
                self.closed += 1;
                self.causes[why.number() as usize] += 1;
            }
            Event::Ready(_) => self.readies += 1,
            Event::Tick(_) => self.ticks += 1,
            Event::StartChild(_) => self.children += 1,
            Event::Command(ref command) => match *command {
                Commanded::Graceful(_) | Commanded::Refused(_) => self.orders += 1,
                Commanded::GracefulStop(_) | Commanded::Stop(_) => (),
            },
            Event::Park(_, _)
            | Event::Hold(_)
            | Event::Queue(_)
            | Event::Start(_)
            | Event::Linger(_, _)
            | Event::Retire(_) => (),
        }
    }

    /// Takes the record on by the history, but for its lines and its editions; then counts no history behind it. Wants no memory.
    pub fn fold_into(&mut self, folded: &mut Folded, history: &[Entry])
        requires ahead { IsAhead folded.old history.now self.old }
        requires places { HasPlacesFor (length folded.old.ordinals) folded.old }
        requires passes { AreOfPasses (length folded.old.ordinals) history.now }
        requires few { folded.old.entries + length history.now < 2 ^ 63 }
        ensures folded { (base : State) (ended : List (List ℕ))
            → folded.new
            ≡ record (fold_of base history.now ended folded.old)
            { lines = folded.old.lines; editions = folded.old.editions } }
        ensures ahead { IsAhead folded.new [] self.new }
    {
        records_go_on_by_folds();
        folded.entries += history.len() as u64;
        folded.accepted = self.accepted;
        folded.closed = self.closed;
        folded.responses = self.responses;
        folded.causes = self.causes;
        folded.children = self.children;
        folded.ticks = self.ticks;
        folded.readies = self.readies;
        folded.orders = self.orders;
        folded.ordinals.copy_from(self.ordinals.as_slice());
        folded.rows.copy_from(self.rows.as_slice());
        self.pages = 0;
    }
}

/// The connection that a pass has behind an event of its own, where it had this one before.
fn has_after(had: Option<ConnName>, event: &Event, reply: Reply) -> Option<ConnName>
    ensures { result ≡ spec.has_after had event.now reply }
{
    match *event {
        Event::Accept(_) => taken_name(reply),
        Event::Hold(name) | Event::Queue(name) => Some(name),
        Event::Park(_, _) | Event::Linger(_, _) | Event::Close(_, _, _) => None,
        _ => had,
    }
}

/// The name of the connection that was taken.
fn taken_name(reply: Reply) -> Option<ConnName>
    ensures { result ≡ spec.taken_name reply }
{
    match reply {
        Reply::Took(name, _, _) => Some(name),
        _ => None,
    }
}
