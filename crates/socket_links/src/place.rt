//! What a front and its links share, and what a link has of it.
ghost use Rattle.std.specs.Prelude.{◌≡◌, false};

use crate::emptied::EmptiedMarks;
use crate::giving_way::GivenWay;
use crate::room::RoomMarks;
use mpm_base::NoMemory;
use std::alloc::Global;
use std::sync::Arc;

/// What a front and its links share: which links may lack room, which gave way, and which emptied their sockets.
#[derive(Drop)]
pub struct Marks {
    pub(crate) room: RoomMarks,
    pub way: GivenWay,
    pub(crate) emptied: EmptiedMarks,
}

impl Marks {
    /// Marks for so many slots, none of which is set. It takes all its memory here.
    pub fn make(alloc: Global, slots: u32) -> Result<Marks, NoMemory> {
        Ok(Marks {
            room: RoomMarks::make(alloc, slots)?,
            way: GivenWay::make(alloc, slots)?,
            emptied: EmptiedMarks::make(alloc, slots)?,
        })
    }
}

/// The place of a link among the marks, once it is watched; and whether it may lack room, which stands in the mark of its slot too.
#[derive(Drop)]
pub(crate) struct LinkPlace {
    marks: Arc<Marks>,
    slot: Option<u32>,
    lacks: bool,
}

impl LinkPlace {
    /// That of a link that isn't watched, and lacks no room.
    pub(crate) fn of(marks: Arc<Marks>) -> LinkPlace
        ensures { result.lacks ≡ false }
    {
        LinkPlace {
            marks,
            slot: None,
            lacks: false,
        }
    }

    /// The link is watched under that slot from now on.
    pub(crate) fn watch(&mut self, slot: u32)
        ensures { self.new.lacks ≡ self.old.lacks }
    {
        self.slot = Some(slot);
        self.marks.room.set(slot, self.lacks);
        self.marks.emptied.begin(slot);
    }

    /// The link isn't watched any more, and its slot may become another one's.
    pub(crate) fn leave(&mut self) {
        if let Some(slot) = self.slot {
            self.marks.way.forget(slot);
        }
        self.slot = None;
    }

    /// The link may lack room from now on, or doesn't.
    pub(crate) fn set_lacks(&mut self, lacks: bool)
        ensures { self.new.lacks ≡ lacks }
    {
        self.lacks = lacks;
        if let Some(slot) = self.slot {
            self.marks.room.set(slot, lacks);
        }
    }

    /// The number of the front's last wait.
    pub(crate) fn last_wait(&self) -> u64 {
        self.marks.way.wait()
    }

    /// The link gives way: the next wait gives its slot, and comes at once.
    pub(crate) fn give_way(&self) {
        if let Some(slot) = self.slot {
            self.marks.way.note(slot);
        }
    }

    /// Whether the link emptied its socket, and nothing was told of it since: then there is nothing to be read.
    pub(crate) fn has_emptied(&self) -> bool {
        match self.slot {
            Some(slot) => self.marks.emptied.has_emptied(slot),
            None => false,
        }
    }

    /// The link reads.
    pub(crate) fn begin_read(&self) {
        if let Some(slot) = self.slot {
            self.marks.emptied.begin_read(slot);
        }
    }

    /// The read is done, and left nothing behind, or may have.
    pub(crate) fn end_read(&self, empties: bool) {
        if let Some(slot) = self.slot {
            self.marks.emptied.end_read(slot, empties);
        }
    }
}
