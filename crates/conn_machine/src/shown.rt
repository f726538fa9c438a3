//! What a status page shows of a state, and the note of a response, which has it where the response is that page.
ghost use Rattle.std.specs.Prelude.{◌≡◌, ◌≤◌, ◌++◌, true, false, Some, IfOk, IsOk, OnOk, count_by, length, slice_get};
ghost use Rattle.conn_machine.specs.Shown as spec;
ghost use Rattle.conn_machine.specs.Table as table;
ghost use Rattle.conn_machine.specs.declared.row.Row.{Row};

use crate::child::{Child, ChildPhase};
use crate::row::{Phase, Place, Row};
use crate::state::State;
use crate::stepping::is_last_for;
use mpm_base::{Ask, ConnName, NoMemory, Note, Octets, Page, Snapshot};
use std::alloc::Global;

/// The letter of a worker of a child that takes connections, by what it does.
fn running_letter(phase: Option<Phase>) -> u8
    ensures { result ≡ spec.running_letter phase }
{
    match phase {
        Some(Phase::Read) => b'R',
        Some(Phase::Write) => b'W',
        Some(Phase::Close) => b'C',
        None => b'_',
    }
}

/// The letter of a worker of a child that stops.
fn stopping_letter(serves: bool) -> u8
    ensures { result ≡ spec.stopping_letter serves }
{
    if serves { b'G' } else { b'.' }
}

/// Whether the letter says that a worker serves a connection.
fn is_busy_letter(letter: u8) -> bool
    ensures { result ≡ spec.is_busy_letter letter }
{
    matches!(letter, b'R' | b'W' | b'C' | b'G')
}

/// Whether the letter says that a worker may be given one.
fn is_idle_letter(letter: u8) -> bool
    ensures { result ≡ spec.is_idle_letter letter }
{
    letter == b'_'
}

/// How many of the letters say that a worker serves a connection.
pub(crate) fn busy_letter_count(letters: &[u8]) -> usize
    ensures is { result ≡ count_by spec.is_busy_letter letters.now }
    ensures few { result ≤ length letters.now }
{
    letters
        .iter()
        .filter(|letter| is_busy_letter(**letter))
        .count()
}

/// How many of the letters say that a worker may be given one.
pub(crate) fn idle_letter_count(letters: &[u8]) -> usize
    ensures is { result ≡ count_by spec.is_idle_letter letters.now }
    ensures few { result ≤ length letters.now }
{
    letters
        .iter()
        .filter(|letter| is_idle_letter(**letter))
        .count()
}

/// The count, where 32 bits can say it: NoMemory where they can't.
fn as_number(count: usize) -> Result<u32, NoMemory>
    ensures { IfOk result (λ number. number ≡ count) }
{
    match u32::try_from(count) {
        Ok(number) => Ok(number),
        Err(_) => Err(NoMemory),
    }
}

/// What a worker does that goes on to send a response.
pub(crate) fn phase_after(last: bool) -> Phase
    ensures { result ≡ table.phase_after last }
{
    if last { Phase::Close } else { Phase::Write }
}

impl State {
    /// The letter of the cell of the child.
    pub(crate) fn letter(&self, number: u32, phase: ChildPhase, cell: u32) -> u8
        ensures { result ≡ spec.letter_in phase self.now number cell }
    {
        match phase {
            ChildPhase::Empty => b'.',
            ChildPhase::Running => running_letter(self.rows.phase_in(number, cell)),
            ChildPhase::Stopping => stopping_letter(self.rows.is_served(number, cell)),
        }
    }

    /// How many letters the child has.
    pub(crate) fn cells_of(&self, child: &Child) -> u32
        ensures { result ≡ spec.cells_of self.now child.now }
    {
        if child.phase.is_empty() {
            self.shape.threads
        } else {
            child.shape.threads
        }
    }

    /// Puts the letters of the child behind the others.
    fn add_letters(&self, letters: &mut Octets, number: u32, child: &Child) -> Result<(), NoMemory>
        ensures { OnOk result
            (letters.new ≡ letters.old ++ spec.child_letters self.now (number, child.now)) }
    {
        for cell in 0..self.cells_of(child) {
            letters.push(self.letter(number, child.phase, cell))?;
        }
        Ok(())
    }

    /// How many letters all children have, as far as numbers go.
    fn cells(&self) -> usize {
        let mut cells: usize = 0;
        for child in self.children.as_slice() {
            cells = cells.saturating_add(self.cells_of(child) as usize);
        }
        cells
    }

    /// The letters of all cells, child by child.
    fn letters(&self, alloc: Global) -> Result<Octets, NoMemory>
        requires few_children { length self.now.children ≤ 32 }
        ensures { IfOk result (λ letters. letters ≡ spec.letters self.now) }
    {
        let mut letters = Octets::make(alloc);
        letters.reserve_exact(self.cells())?;
        for (number, child) in self.children.as_slice().iter().enumerate() {
            self.add_letters(&mut letters, number as u32, child)?;
        }
        Ok(letters)
    }

    /// What a status page shows of the state. It goes over the cells, and over no rows. NoMemory where memory lacks for the letters, or
    /// where there are more of them than 32 bits can say, as there are in no sound state of so few children.
    #[tactic(auto, unfolding(crate::specs::Shown::snapshot_of))]
    pub fn snapshot(&self, alloc: Global) -> Result<Snapshot, NoMemory>
        requires few_rows { length self.now.rows ≤ 8192 }
        requires few_children { length self.now.children ≤ 32 }
        ensures { IfOk result (λ shown. shown ≡ spec.snapshot_of self.now) }
    {
        let letters = self.letters(alloc)?;
        Ok(Snapshot {
            generation: self.newest,
            busy: as_number(busy_letter_count(letters.as_slice()))?,
            idle: as_number(idle_letter_count(letters.as_slice()))?,
            total: self.rows.live_count() as u32,
            writing: self.rows.writing_count() as u32,
            keep_alive: self.rows.keep_alive_count() as u32,
            closing: self.rows.closing_count() as u32,
            letters,
        })
    }

    /// The same once the worker of the connection of that name went on to send a response, the last one or another. It goes on for as long
    /// as this is made, and back.
    fn snapshot_when_sending(
        &mut self,
        alloc: Global,
        name: ConnName,
        last: bool,
    ) -> Result<Page, NoMemory>
        requires may { table.may_answer self.old name ≡ true }
        requires few_rows { length self.old.rows ≤ 8192 }
        requires few_children { length self.old.children ≤ 32 }
        ensures still { self.new ≡ self.old }
        ensures shown { IfOk result
            (λ shown. shown ≡ spec.snapshot_of (table.when_sending last name.slot self.old)) }
    {
        let Some(row) = self.rows.live(name) else {
            unreachable!()
        };
        let Place::Working(_, phase) = row.place else {
            unreachable!()
        };
        self.rows.go_on(name.slot, phase_after(last));
        let shown = self.snapshot(alloc);
        self.rows.go_on(name.slot, phase);
        Page::make(alloc, shown?)
    }

    /// The note of the response to what the connection of that name asks. NoMemory where memory lacks for its page.
    pub fn note_for(&mut self, alloc: Global, name: ConnName, ask: &Ask) -> Result<Note, NoMemory>
        requires may { table.may_answer self.old name ≡ true }
        requires few_rows { length self.old.rows ≤ 8192 }
        requires few_children { length self.old.children ≤ 32 }
        ensures still { self.new ≡ self.old }
        ensures note { IfOk result
            (λ note. (r : Row)
            → slice_get self.old.rows name.slot ≡ Some r
            → note ≡ table.note_for self.old name.slot ask.now r) }
        ensures sure { ask.now.page ≡ false → IsOk result }
    {
        let Some(row) = self.rows.live(name) else {
            unreachable!()
        };
        let last = is_last_for(self, ask, row);
        let page = if ask.page {
            Some(self.snapshot_when_sending(alloc, name, last)?)
        } else {
            None
        };
        Ok(Note {
            date: self.moment / 1000,
            asked_close: ask.asked_close || ask.refused,
            last,
            code: ask.code,
            page,
        })
    }
}
