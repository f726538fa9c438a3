//! The numbers of a status page, without its letters and without memory.
ghost use Rattle.std.specs.Prelude.{◌≡◌, ◌≤◌, ◌+◌, ◌++◌, length};
ghost use Rattle.arrayvec.specs.ArrayVec.{array_vec_len};
ghost use Rattle.conn_machine.specs.Shown as spec;
ghost use Rattle.conn_machine.specs.Sound.{IsSound};

use crate::child::Child;
use crate::shown::{busy_letter_count, idle_letter_count};
use crate::state::State;
use arrayvec::ArrayVec;

/// The numbers that a status page shows of a state.
#[derive(Clone, Copy, Debug, PartialEq, Eq)]
pub struct Totals {
    /// The newest generation.
    pub generation: u32,
    /// How many workers serve a connection.
    pub busy: u32,
    /// How many workers serve none, and may be given one.
    pub idle: u32,
    /// How many connections are live.
    pub total: u32,
    /// How many of them wait for room to be sent more.
    pub writing: u32,
    /// How many wait for a further request.
    pub keep_alive: u32,
    /// How many linger, and wait for their clients to close.
    pub closing: u32,
}

/// How many letters a state has at most: 32 children have 64 each.
const MOST_LETTERS: usize = 2048;

impl State {
    /// Puts the letters of the child behind the others.
    fn fill_child(&self, letters: &mut ArrayVec<u8, MOST_LETTERS>, number: u32, child: &Child)
        requires fits { array_vec_len letters.old + spec.cells_of self.now child.now ≤ 2048 }
        ensures made { letters.new.items
            ≡ letters.old.items ++ spec.child_letters self.now (number, child.now) }
        ensures len { array_vec_len letters.new
            ≡ array_vec_len letters.old + spec.cells_of self.now child.now }
    {
        for cell in 0..self.cells_of(child) {
            letters.push(self.letter(number, child.phase, cell));
        }
    }

    /// The letters of all cells, child by child.
    fn all_letters(&self) -> ArrayVec<u8, MOST_LETTERS>
        requires sound { IsSound self.now }
        requires few_children { length self.now.children ≤ 32 }
        ensures letters { result.items ≡ spec.letters self.now }
        ensures few { length result.items ≤ 2048 }
    {
        let mut letters = ArrayVec::new();
        for (number, child) in self.children.as_slice().iter().enumerate() {
            self.fill_child(&mut letters, number as u32, child);
        }
        letters
    }

    /// The numbers that a status page shows of the state. It goes over the cells, and over no rows, and takes no memory.
    #[tactic(auto, unfolding(crate::specs::Shown::snapshot_of, crate::specs::Shown::totals_of))]
    pub fn totals(&self) -> Totals
        requires sound { IsSound self.now }
        requires few_rows { length self.now.rows ≤ 8192 }
        requires few_children { length self.now.children ≤ 32 }
        ensures { result ≡ spec.totals_of self.now }
    {
        let letters = self.all_letters();
        Totals {
            generation: self.newest,
            busy: busy_letter_count(letters.as_slice()) as u32,
            idle: idle_letter_count(letters.as_slice()) as u32,
            total: self.rows.live_count() as u32,
            writing: self.rows.writing_count() as u32,
            keep_alive: self.rows.keep_alive_count() as u32,
            closing: self.rows.closing_count() as u32,
        }
    }
}
