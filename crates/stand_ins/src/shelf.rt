//! Files at places, and a map that finds them.
//! Why it is so stands in docs/DECISIONS.md: 103, Files in memory, and their editions.
ghost use Rattle.std.specs.Prelude.{◌≡◌, ℕ, ◌+◌, ◌<◌, ◌≤◌, [], ◌∷◌, ◌++◌, IfSome, IfNone, IfOk, IsOk, OnOk, OnErr, option_map};
ghost use Rattle.mpm_base.specs.Store.{content_of};
ghost use Rattle.stand_ins.specs.Files.{files_in, with_file, without_file};
ghost use Rattle.stand_ins.specs.FilesInside.{AreFound, FindsSlots, HasNone, HaveTexts, IsEntry, IsOnlyAt, room_in};

use crate::entry::Entry;
use crate::slot::Slot;
use mpm_base::{Content, NoMemory};
use std::alloc::Global;
use std::collections::HashMap;
use std::marker::Model;

/// A list of files, and for how many further ones there is room, as contracts see it. A file that is removed leaves its place empty,
/// and the map isn't told.
#[derive(Drop)]
pub(crate) struct Shelf {
    slots: Vec<Slot>,
    places: HashMap<Vec<u8>, usize>,
}

impl Model for Shelf {
    ghost use Rattle.stand_ins.specs.Files.{files_in};
    ghost use Rattle.stand_ins.specs.FilesInside.{AreFound, SeenShelf, room_in};

    ghost Value = { SeenShelf };

    ghost view = { λ s. record {
      files = files_in s.slots.items;
      room = room_in s.slots s.places;
    } };

    ghost invariant = { λ s. AreFound s.places s.slots.items };
}

impl Shelf {
    /// No files, which take no memory.
    pub(crate) fn make(alloc: Global) -> Shelf
        ensures { result.files ≡ [] }
    {
        Shelf {
            slots: Vec::new(alloc),
            places: HashMap::new(alloc),
        }
    }

    /// No files, and room for so many.
    pub(crate) fn with_room(alloc: Global, count: usize) -> Result<Shelf, NoMemory>
        ensures files { IfOk result (λ shelf. shelf.files ≡ []) }
        ensures room { IfOk result (λ shelf. count ≤ shelf.room) }
    {
        let mut slots = Vec::new(alloc);
        slots.reserve(count)?;
        let places = HashMap::with_capacity(alloc, count)?;
        Ok(Shelf { slots, places })
    }

    /// Gives the file of that name what the entry has, in its place, or puts it at the end where there is none.
    /// Where memory lacks nothing changes. Where there is room it doesn't.
    pub(crate) fn set(&mut self, entry: Entry) -> Result<(), NoMemory>
        ensures ok { OnOk result
            (self.new.files ≡ with_file entry.name entry.content self.old.files) }
        ensures err { OnErr result (self.new.files ≡ self.old.files) }
        ensures succeeds { 0 < self.old.room → IsOk result }
        ensures room { self.old.room ≤ self.new.room + 1 }
    {
        let Entry { key, name, content } = entry;
        if let Some(place) = place_of(&self.slots, &self.places, name.as_slice()) {
            self.slots[place].fill(content);
            return Ok(());
        }
        let slot = Slot {
            name,
            content: Some(content),
        };
        put(&mut self.slots, &mut self.places, key, slot)
    }

    /// Removes the file of that name, where there is one.
    pub(crate) fn unset(&mut self, name: &[u8])
        ensures files { self.new.files ≡ without_file name.now self.old.files }
        ensures room { self.old.room ≤ self.new.room }
    {
        if let Some(place) = place_of(&self.slots, &self.places, name) {
            self.slots[place].empty();
        }
    }

    /// What the file of that name has.
    pub(crate) fn get(&self, name: &[u8]) -> Option<&Content>
        ensures { option_map (λ content. content.now) result
            ≡ content_of name.now self.now.files }
    {
        match place_of(&self.slots, &self.places, name) {
            Some(place) => self.slots[place].kept(),
            None => None,
        }
    }

    /// The places, in order.
    pub(crate) fn slots(&self) -> &[Slot]
        ensures files { files_in result.now ≡ self.now.files }
        ensures texts { HaveTexts result.now }
    {
        self.slots.as_slice()
    }
}

/// The place of the file of that name.
fn place_of(slots: &[Slot], places: &HashMap<Vec<u8>, usize>, name: &[u8]) -> Option<usize>
    requires { FindsSlots places.now slots.now }
    ensures some { IfSome result (λ place. IsOnlyAt name.now place slots.now) }
    ensures none { IfNone result (HasNone name.now slots.now) }
{
    // The map may still have the place of a file that was removed.
    let place = places.get(name).copied()?;
    let slot = slots.get(place)?;
    if slot.has_name(name) {
        Some(place)
    } else {
        None
    }
}

/// Puts the file at the end, where there is none of its name. Where memory lacks nothing changes. Where there is room it doesn't.
fn put(
    slots: &mut Vec<Slot>,
    places: &mut HashMap<Vec<u8>, usize>,
    key: Vec<u8>,
    slot: Slot,
) -> Result<(), NoMemory>
    requires entry { IsEntry key.items slot.name }
    requires none { HasNone slot.name slots.old.items }
    requires found { AreFound places.old slots.old.items }
    ensures ok { OnOk result (slots.new.items ≡ slots.old.items ++ slot ∷ []) }
    ensures err { OnErr result (slots.new.items ≡ slots.old.items) }
    ensures found { AreFound places.new slots.new.items }
    ensures succeeds { 0 < room_in slots.old places.old → IsOk result }
    ensures room { room_in slots.old places.old ≤ room_in slots.new places.new + 1 }
{
    let place = slots.len();
    slots.reserve(1)?;
    places.insert(key, place)?;
    slots.push_reserved(slot);
    Ok(())
}
