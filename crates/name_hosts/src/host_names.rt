//! The names of a host, each with a mark.
ghost use Rattle.std.specs.Prelude.{◌≡◌, ◌<◌, get_or, length, map, [], IfOk};
ghost use Rattle.mpm_base.specs.LetterCase.{is_same_ignoring_case};
ghost use Rattle.name_hosts.specs.Host.{has_name};
ghost use Rattle.name_hosts.specs.MarkInside.{mark, mark_of_bytes, marks_below};

use mpm_base::{Names, NoMemory, is_same_ignoring_case};
use std::alloc::Global;
use std::marker::Model;

/// A mark is below this.
const MARKS_BELOW: u32 = 16_777_213;

/// So many bytes of a name make its mark.
const MOST_MARKED: usize = 64;

/// The names of a host. For contracts it is their list; it keeps a mark for each, so that a name that is looked for is compared with few.
#[derive(Debug, Drop)]
pub struct HostNames {
    names: Names,
    marks: Vec<u32>,
}

impl Model for HostNames {
    ghost use Rattle.std.specs.Prelude.{ℕ, List};
    ghost use Rattle.name_hosts.specs.MarkInside.{AreMarks};

    ghost Value = { List (List ℕ) };

    ghost view = { λ h. h.names };

    ghost invariant = { λ h. AreMarks h.names h.marks.items };
}

impl HostNames {
    /// A host of these names.
    pub fn of(alloc: Global, names: Names) -> Result<HostNames, NoMemory>
        ensures { IfOk result (λ host. host ≡ names) }
    {
        let marks = marks_of(alloc, &names)?;
        Ok(HostNames { names, marks })
    }

    /// Whether the name at the place is that of the host, which has this mark.
    fn is_at(&self, place: usize, host: &[u8], marked: u32) -> bool
        requires there { place < length self.now }
        requires marked { marked ≡ mark host.now }
        ensures { result ≡ is_same_ignoring_case host.now (get_or self.now place []) }
    {
        self.marks[place] == marked
            && is_same_ignoring_case(host, self.names.as_slice()[place].as_slice())
    }

    /// Whether one of the names is that of the host, which has this mark.
    pub(crate) fn has(&self, host: &[u8], marked: u32) -> bool
        requires { marked ≡ mark host.now }
        ensures { result ≡ has_name host.now self.now }
    {
        for place in 0..self.names.len() {
            if self.is_at(place, host, marked) {
                return true;
            }
        }
        false
    }
}

/// The mark of a name.
pub(crate) fn mark_of(name: &[u8]) -> u32
    ensures { result ≡ mark name.now }
{
    if name.len() > MOST_MARKED {
        mark_of_bytes(&name[..MOST_MARKED])
    } else {
        mark_of_bytes(name)
    }
}

/// The mark of some bytes, in which the case of letters doesn't count.
fn mark_of_bytes(bytes: &[u8]) -> u32
    ensures { result ≡ mark_of_bytes bytes.now }
{
    let mut marked = 0;
    for byte in bytes {
        marked = (marked * 31 + byte.to_ascii_lowercase() as u32) % MARKS_BELOW;
    }
    marked
}

/// The marks of these names.
fn marks_of(alloc: Global, names: &Names) -> Result<Vec<u32>, NoMemory>
    ensures { IfOk result (λ marks. marks.items ≡ map mark names.now) }
{
    let mut marks = Vec::new(alloc);
    for name in names.as_slice() {
        marks.push(mark_of(name.as_slice()))?;
    }
    Ok(marks)
}
