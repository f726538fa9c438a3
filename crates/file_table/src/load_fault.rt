//! Why a site isn't loaded.
use mpm_base::{NoMemory, Octets};
use thiserror::Error;

/// Why a site isn't loaded.
#[derive(Debug, Drop, Error)]
pub enum LoadFault {
    /// A call of the store failed.
    #[error("the store failed")]
    StoreFault,
    /// There are more than 65,536 files: the root of the first host with which it is so.
    #[error("too many files")]
    TooMany(Octets),
    /// The first file, by the order of roots and then of names, of more than 16,777,216 bytes or with which the files have more
    /// than 67,108,864: its name in the store, and how many bytes it has.
    #[error("a file is too large: it has {1} bytes")]
    TooLarge(Octets, u64),
    /// Memory was wanted and not found.
    #[error("out of memory")]
    NoMemory,
}

impl From<NoMemory> for LoadFault {
    ghost use Rattle.std.specs.Prelude.{◌≡◌};
    ghost use Rattle.file_table.specs.declared.load_fault.LoadFault.TheVariants as fault;

    ghost from_gives = { λ _ e. e ≡ fault.NoMemory };

    fn from(_: NoMemory) -> LoadFault {
        LoadFault::NoMemory
    }
}
