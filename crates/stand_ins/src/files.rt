//! A list of files by name.
//! Why it is so stands in docs/DECISIONS.md: 1, The names of a store.
ghost use Rattle.std.specs.Prelude.{◌≡◌, ◌≢◌, ℕ, Some, None, List, [], OnOk, OnErr, option_map};
ghost use Rattle.mpm_base.specs.Store.{content_of};
ghost use Rattle.stand_ins.specs.Files.{files_in, with_file, without_file};

use crate::entry::Entry;
use crate::shelf::Shelf;
use crate::slot::Slot;
use mpm_base::{Content, NoMemory, Second};
use std::alloc::Global;
use std::marker::Model;

/// A list of files, as contracts see it. Each is found by a map, and so in a time that doesn't grow with their number. Each name is
/// UTF-8.
#[derive(Drop)]
pub struct Files {
    alloc: Global,
    shelf: Shelf,
}

impl Model for Files {
    ghost use Rattle.std.specs.Prelude.{List};
    ghost use Rattle.mpm_base.specs.declared.store.File.{File};

    ghost Value = { List File };

    ghost view = { λ f. f.shelf.files };
}

impl Files {
    /// The empty list, which takes no memory.
    pub fn make(alloc: Global) -> Files
        ensures { result ≡ [] }
    {
        Files {
            alloc,
            shelf: Shelf::make(alloc),
        }
    }

    /// Gives the file of that name these bytes, changed in the second 0, in its place, or puts it at the end where there is none.
    /// Where memory lacks nothing changes.
    pub fn set(&mut self, name: &str, bytes: &[u8]) -> Result<(), NoMemory>
        ensures ok { OnOk result (self.new
            ≡ with_file name.now (record { bytes = bytes.now; second = 0 }) self.old) }
        ensures err { OnErr result (self.new ≡ self.old) }
    {
        self.set_at(name, bytes, Second::of(0))
    }

    /// The same, changed in that second.
    pub fn set_at(&mut self, name: &str, bytes: &[u8], second: Second) -> Result<(), NoMemory>
        ensures ok { OnOk result (self.new
            ≡ with_file name.now (record { bytes = bytes.now; second = second }) self.old) }
        ensures err { OnErr result (self.new ≡ self.old) }

        // So the file has this now, and each other its own.
        ensures found { OnOk result (content_of name.now self.new
            ≡ Some (record { bytes = bytes.now; second = second })) }
        ensures others { OnOk result
            ((other : List ℕ) → other ≢ name.now →
            content_of other self.new ≡ content_of other self.old) }
    {
        let entry = Entry::of(self.alloc, name, bytes, second)?;
        self.shelf.set(entry)
    }

    /// Removes the file of that name, where there is one.
    pub fn unset(&mut self, name: &str)
        ensures files { self.new ≡ without_file name.now self.old }

        // So there is no such file now, and each other has its own.
        ensures missing { content_of name.now self.new ≡ None }
        ensures others { (other : List ℕ) → other ≢ name.now →
            content_of other self.new ≡ content_of other self.old }
    {
        self.shelf.unset(name.as_bytes());
    }

    /// What the file of that name has.
    pub fn get(&self, name: &str) -> Option<&Content>
        ensures { option_map (λ content. content.now) result ≡ content_of name.now self.now }
    {
        self.shelf.get(name.as_bytes())
    }

    /// The places of the files, in order. At some there may be none any more.
    pub fn slots(&self) -> &[Slot]
        ensures { files_in result.now ≡ self.now }
    {
        self.shelf.slots()
    }

    /// The same, as what keeps them.
    pub(crate) fn into_shelf(self) -> Shelf
        ensures { result.files ≡ self }
    {
        let Files { alloc: _, shelf } = self;
        shelf
    }
}
