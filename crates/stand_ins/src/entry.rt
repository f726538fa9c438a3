//! A file that is to be put among others.
ghost use Rattle.std.specs.Prelude.{◌≡◌, IfOk};

use mpm_base::{Content, NoMemory, Octets, Second};
use std::alloc::Global;
use std::marker::Model;

/// A file, as contracts see it, with all that is needed to put it among others: its name, which is UTF-8, that once more as the key
/// of a map, and what it has.
#[derive(Drop)]
pub(crate) struct Entry {
    pub(crate) key: Vec<u8>,
    pub(crate) name: Octets,
    pub(crate) content: Content,
}

impl Model for Entry {
    ghost use Rattle.stand_ins.specs.FilesInside.{IsEntry, SeenEntry};

    ghost Value = { SeenEntry };

    ghost view = { λ e. record { name = e.name; content = e.content } };

    ghost invariant = { λ e. IsEntry e.key.items e.name };
}

impl Entry {
    /// The file of that name with these bytes, which was changed in that second.
    pub(crate) fn of(
        alloc: Global,
        name: &str,
        bytes: &[u8],
        second: Second,
    ) -> Result<Entry, NoMemory>
        ensures { IfOk result (λ entry. entry ≡ record {
          name = name.now;
          content = record { bytes = bytes.now; second = second };
        }) }
    {
        let word = name.as_bytes();
        let key = Vec::from_slice(alloc, word)?;
        let text = Octets::of(alloc, word)?;
        let octets = Octets::of(alloc, bytes)?;
        Ok(Entry {
            key,
            name: text,
            content: Content {
                bytes: octets,
                second,
            },
        })
    }
}
