//! The changes of a folder of files, one behind the other, and where its editions end.
ghost use Rattle.std.specs.Prelude.{◌≡◌, ◌++◌, ◌∷◌, [], length, OnOk, OnErr};
ghost use Rattle.stand_ins.specs.Files.{with_file, without_file};
ghost use Rattle.stand_ins.specs.History.{no_history};
ghost use Rattle.stand_ins.specs.HistoryInside.{seen_history};

use crate::entry::Entry;
use mpm_base::{NoMemory, Octets, Second};
use std::alloc::Global;
use std::collections::VecDeque;
use std::marker::Model;

/// A step of a history.
#[derive(Drop)]
pub(crate) enum Step {
    /// The file of that name has this from now on.
    Set(Entry),
    /// There is no file of that name any more.
    Unset(Octets),
    /// The files are an edition.
    End,
}

/// What became of a folder of files, which is empty at first: one list of its changes, and of where its editions end. So an edition
/// takes no memory for what it shares with the one before it.
#[derive(Drop)]
pub struct History {
    alloc: Global,
    steps: VecDeque<Step>,
    count: usize,
}

impl Model for History {
    ghost use Rattle.std.specs.Prelude.{◌≡◌, [], length};
    ghost use Rattle.stand_ins.specs.History.{SeenHistory};
    ghost use Rattle.stand_ins.specs.HistoryInside.{ended, seen_history};

    ghost Value = { SeenHistory };

    ghost view = { λ h. seen_history h.steps.items };

    ghost invariant = { λ h. h.count ≡ length (ended [] h.steps.items) };
}

impl History {
    /// No change was made, and no edition ended. It takes no memory.
    pub fn make(alloc: Global) -> History
        ensures { result ≡ no_history }
    {
        History {
            alloc,
            steps: VecDeque::new(alloc),
            count: 0,
        }
    }

    /// Gives the file of that name these bytes, changed in that second, in its place, or puts it at the end where there is none.
    /// Where memory lacks nothing changes.
    pub fn set(&mut self, name: &str, bytes: &[u8], second: Second) -> Result<(), NoMemory>
        ensures ok { OnOk result (self.new ≡ record self.old {
          files = with_file name.now (record { bytes = bytes.now; second = second }) self.old.files;
        }) }
        ensures err { OnErr result (self.new ≡ self.old) }
    {
        let entry = Entry::of(self.alloc, name, bytes, second)?;
        self.steps.push_back(Step::Set(entry))?;
        Ok(())
    }

    /// Removes the file of that name, where there is one. Where memory lacks nothing changes.
    pub fn unset(&mut self, name: &str) -> Result<(), NoMemory>
        ensures ok { OnOk result (self.new
            ≡ record self.old { files = without_file name.now self.old.files }) }
        ensures err { OnErr result (self.new ≡ self.old) }
    {
        let octets = Octets::of(self.alloc, name.as_bytes())?;
        self.steps.push_back(Step::Unset(octets))?;
        Ok(())
    }

    /// Has the files that all changes leave be the next edition. Where memory lacks nothing changes.
    pub fn end(&mut self) -> Result<(), NoMemory>
        ensures ok { OnOk result (self.new
            ≡ record self.old { past = self.old.past ++ self.old.files ∷ [] }) }
        ensures err { OnErr result (self.new ≡ self.old) }
    {
        let Some(count) = self.count.checked_add(1) else {
            return Err(NoMemory);
        };
        self.steps.push_back(Step::End)?;
        self.count = count;
        Ok(())
    }

    /// Its steps, and how many editions end with them.
    pub(crate) fn into_steps(self) -> (VecDeque<Step>, usize)
        ensures steps { seen_history result.0.items ≡ self }
        ensures count { result.1 ≡ length self.past }
    {
        let History {
            alloc: _,
            steps,
            count,
        } = self;
        (steps, count)
    }
}
