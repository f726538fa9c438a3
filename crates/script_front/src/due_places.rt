//! Places at which something may be due, lowest first.
//! Why it is so stands in docs/DECISIONS.md: 16, The reader of scripts and speed.
ghost use Rattle.std.specs.Prelude.{◌≡◌, ℕ, ◌+◌, ◌*◌, ◌<◌, ◌≤◌, true, false, length, slice_index_or, slice_set, IfOk, IfSome, IfNone};
ghost use Rattle.script_front.specs.DuePlacesInside.{AreMarked, AreUnmarked, IsLowest, TakesLowest};

use mpm_base::NoMemory;
use std::alloc::Global;

/// How many places a block has.
const BLOCK: usize = 64;

/// Which of so many places are marked, and between which two of them all marked ones stand. The next one is looked for there
/// alone, and in those blocks of places of which one may be marked. A mark takes no memory.
#[derive(Drop)]
pub(crate) struct DuePlaces {
    marks: Vec<bool>,
    // Of each block of places whether one of them may be marked.
    blocks: Vec<bool>,
    low: usize,
    high: usize,
}

impl DuePlaces {
    /// So many places, of which none is marked.
    pub(crate) fn make(alloc: Global, count: usize) -> Result<DuePlaces, NoMemory>
        ensures each { IfOk result (λ due. length due.marks.items ≡ count) }
        ensures marked { IfOk result (λ due. AreMarked due) }
    {
        Ok(DuePlaces {
            marks: unmarked(alloc, count)?,
            blocks: unmarked(alloc, count / BLOCK + 1)?,
            low: 0,
            high: 0,
        })
    }

    /// Marks the place.
    pub(crate) fn add(&mut self, place: usize)
        requires within { place < length self.old.marks.items }
        requires marked { AreMarked self.old }
        ensures marks { self.new.marks.items ≡ slice_set self.old.marks.items place true }
        ensures marked { AreMarked self.new }
    {
        self.marks[place] = true;
        self.blocks[place / BLOCK] = true;
        self.low = self.low.min(place);
        self.high = self.high.max(place + 1);
    }

    /// Takes the mark from the lowest place that has one.
    pub(crate) fn take(&mut self) -> Option<usize>
        requires { AreMarked self.old }
        ensures some { IfSome result (λ place. TakesLowest place self.old self.new) }
        ensures none { IfNone result
            (AreUnmarked self.old.marks.items 0 (length self.old.marks.items)) }
        ensures same { IfNone result (self.new.marks.items ≡ self.old.marks.items) }
        ensures marked { AreMarked self.new }
    {
        let mut block = self.low / BLOCK;
        'steps: while block * BLOCK < self.high {
            if let Some(place) = self.lowest_in(block) {
                self.marks[place] = false;
                self.low = place + 1;
                return Some(place);
            }
            block += 1;
        }
        self.low = self.marks.len();
        self.high = 0;
        None
    }

    /// The lowest place of the block that is marked, where none before the block is. Where the block has none it isn't looked at again
    /// until one is marked.
    fn lowest_in(&mut self, block: usize) -> Option<usize>
        requires marked { AreMarked self.old }
        requires within { 64 * block < self.old.high }
        requires before { AreUnmarked self.old.marks.items self.old.low (64 * block) }
        ensures some { IfSome result
            (λ place. IsLowest self.old.marks.items self.old.low (64 * block + 64) place) }
        ensures none { IfNone result
            (AreUnmarked self.old.marks.items self.old.low (64 * block + 64)) }
        ensures marks { self.new.marks.items ≡ self.old.marks.items }
        ensures low { self.new.low ≡ self.old.low }
        ensures high { self.new.high ≡ self.old.high }
        ensures marked { AreMarked self.new }
    {
        if !self.blocks[block] {
            return None;
        }
        let first = block * BLOCK;
        let end = (first + BLOCK).min(self.high);
        let place = lowest(self.marks.as_slice(), first.max(self.low), end);
        self.blocks[block] = place.is_some();
        place
    }
}

/// So many places, of which none is marked.
fn unmarked(alloc: Global, count: usize) -> Result<Vec<bool>, NoMemory>
    ensures each { IfOk result (λ marks. length marks.items ≡ count) }
    ensures none { IfOk result (λ marks. (k : ℕ) → slice_index_or marks.items k false ≡ false) }
{
    let mut marks = Vec::new(alloc);
    for place in 0..count {
        marks.push(false)?;
    }
    Ok(marks)
}

/// The lowest of the places from the one up to the other that is marked.
fn lowest(marks: &[bool], low: usize, high: usize) -> Option<usize>
    requires { high ≤ length marks.now }
    ensures some { IfSome result (λ place. IsLowest marks.now low high place) }
    ensures none { IfNone result (AreUnmarked marks.now low high) }
{
    for place in low..high {
        if marks[place] {
            return Some(place);
        }
    }
    None
}
