//! A folder of files by name.
//! Why it is so stands in docs/DECISIONS.md: 123, When a file was changed.

use crate::octets::Octets;
use crate::second::Second;
use crate::sequence::Sequence;
use std::alloc::Global;
use thiserror::Error;

/// A file: its name, which is UTF-8, its bytes, and when it was changed.
#[derive(Debug, Drop)]
pub struct File {
    pub name: Octets,
    pub bytes: Octets,
    /// The second in which it was changed.
    pub second: Second,
}

/// What a file has: its bytes, and when it was changed.
#[derive(Debug, Drop)]
pub struct Content {
    pub bytes: Octets,
    /// The second in which it was changed.
    pub second: Second,
}

/// A list of names of files, as contracts see it.
pub type Names = Sequence<Octets>;

/// Why a store gives no bytes or no names.
#[derive(Clone, Copy, Debug, PartialEq, Eq, Error)]
pub enum StoreFault {
    /// There is no file of that name.
    #[error("no such file")]
    Missing,
    /// The file has more bytes than were asked for: so many.
    #[error("the file has {0} bytes")]
    Large(u64),
    /// There are more names than were asked for.
    #[error("too many files")]
    Many,
    /// The call failed.
    #[error("the store failed")]
    Failed,
    /// Memory was wanted and not found.
    #[error("out of memory")]
    NoMemory,
}

/// A folder of files by name. Where it tells its files, they change at a call of `renew` alone.
pub trait Store {
    ghost use Rattle.mpm_base.specs.Store.{StoreSeen, Renews, ListsNames, ReadsBytes, ReadsFile};

    /// The files, where the object tells them; and its counts of faults, and of refusals for what the files are, none of which
    /// ever falls.
    ghost seen: { Self → StoreSeen };

    /// Goes to the next edition of the files, or keeps the last one.
    fn renew(&mut self)
        ensures { Renews (seen self.old) (seen self.new) };

    /// The names below a folder, at most so many. Answers Many, Failed or NoMemory where it gives none.
    fn names(&mut self, alloc: Global, under: &str, most: u32) -> Result<Names, StoreFault>
        ensures { ListsNames (seen self.old) (seen self.new) under.now most result };

    /// What a file has, of at most so many bytes. Answers Missing, Large, Failed or NoMemory where it gives none.
    fn read(&mut self, alloc: Global, name: &str, most: u64) -> Result<Content, StoreFault>
        ensures { ReadsFile (seen self.old) (seen self.new) name.now most result };

    /// The bytes of a file alone, at most so many. Answers as `read` does where it gives none.
    final fn read_bytes(
        &mut self,
        alloc: Global,
        name: &str,
        most: u64,
    ) -> Result<Octets, StoreFault>
    where
        Self: Sized,
        ensures { ReadsBytes (seen self.old) (seen self.new) name.now most result }
    {
        match self.read(alloc, name, most) {
            Ok(content) => {
                let Content { bytes, second: _ } = content;
                Ok(bytes)
            }
            Err(fault) => Err(fault),
        }
    }
}
