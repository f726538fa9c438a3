//! What the steps of one caller found.
//! Why it is so stands in docs/DECISIONS.md: 63, What a perch found.
ghost use Rattle.std.specs.Prelude.{◌≡◌, ◌≤◌, ◌<◌, [], ◌∷◌, ◌++◌, IfOk, vec_len, vec_capacity};
ghost use Rattle.recycle_perch.specs.Looking.{LookAt};

use crate::word::{PickUpStep, RestRule};
use atomic_table::{Mark, RuledPerch};
use mpm_base::NoMemory;
use std::alloc::Global;
use std::collections::LinkedList;
use table_rule::Step;
use table_rule::laws_of_trails::{makers_have_their_own_steps, trails_go_on_by_one_step};

/// What the steps of one caller on the words of a perch found: a mark of the word of each place, in their order.
#[derive(Drop)]
pub struct Looks {
    pub(crate) marks: Vec<Mark<LinkedList<Step>>>,
    /// The place at which they look first: the one behind that at which they last found a carrier.
    next: usize,
}

impl Looks {
    /// Looks at no place yet, with room for so many.
    pub(crate) fn make(alloc: Global, places: usize) -> Result<Looks, NoMemory>
        ensures { IfOk result (λ looks. LookAt [] places looks) }
    {
        match Vec::with_capacity(alloc, places) {
            Ok(marks) => Ok(Looks { marks, next: 0 }),
            Err(_) => Err(NoMemory),
        }
    }

    /// The place at which they look first, of so many.
    pub(crate) fn first(&self, places: usize) -> usize
        ensures { result ≤ places }
    {
        if self.next < places { self.next } else { 0 }
    }

    /// They look first behind this place from now on.
    pub(crate) fn found_at(&mut self, place: usize)
        ensures { self.new.marks ≡ self.old.marks }
    {
        self.next = place.saturating_add(1);
    }

    /// Looks at one place more.
    pub(crate) fn add<S: Drop, V>(&mut self, perch: &RuledPerch<S, V, LinkedList<Step>, RestRule>)
        requires { vec_len self.old.marks < vec_capacity self.old.marks }
        ensures words { (words : _) (room : _)
            → LookAt words room self.old
            → LookAt (words ++ perch.now.name ∷ []) room self.new }
    {
        trails_go_on_by_one_step();
        makers_have_their_own_steps();
        let (_, mark, _) = perch.swap_new_mark::<PickUpStep>(0);
        self.marks.push_reserved(mark);
    }
}
