//! The commands of a script, as its front brings them.
//! Why it is so stands in docs/DECISIONS.md: 8, Command lines of a script.
ghost use Rattle.std.specs.Prelude.{◌≡◌, ◌==◌, ◌+◌, ◌-◌, ◌^◌, ◌<◌, ◌≤◌, ◌∷◌, length, IfOk, IfSome, IfNone};
ghost use Rattle.mpm_script.specs.Commands.{commands_of};
ghost use Rattle.script_front.specs.PlayedPartsInside.{new_commands};

use mpm_base::{CommandWord, NoMemory, ScriptLine};
use std::alloc::Global;
use std::collections::VecDeque;
use std::marker::Model;

/// The commands of a script that weren't read, how many of its command lines have come, and how many of these were read.
#[derive(Drop)]
pub(crate) struct ScriptCommands {
    unread: VecDeque<CommandWord>,
    came: usize,
    read: usize,
}

impl Model for ScriptCommands {
    ghost use Rattle.script_front.specs.PlayedPartsInside.{SeenCommands};

    ghost Value = { SeenCommands };

    ghost view = { λ c. record { unread = c.unread.items; came = c.came; read = c.read } };

    ghost use Rattle.script_front.specs.PlayedPartsInside.{AreInOrder};

    ghost invariant = { λ c. AreInOrder c.unread.items c.came c.read };
}

impl ScriptCommands {
    /// The commands of the lines. None has come.
    pub(crate) fn make(alloc: Global, lines: &[ScriptLine]) -> Result<ScriptCommands, NoMemory>
        ensures { IfOk result (λ commands. commands ≡ new_commands (commands_of lines.now)) }
    {
        let mut unread = VecDeque::new(alloc);
        for line in lines {
            if let ScriptLine::Command(word) = line {
                unread.push_back(*word)?;
            }
        }
        Ok(ScriptCommands {
            unread,
            came: 0,
            read: 0,
        })
    }

    /// So many further command lines come.
    pub(crate) fn come(&mut self, count: usize)
        requires fits { self.old.came + count < 2 ^ 64 }
        requires few { self.old.came + count ≤ self.old.read + length self.old.unread }
        ensures { self.new ≡ record self.old { came = self.old.came + count } }
    {
        self.came += count;
    }

    /// How many came that weren't read.
    pub(crate) fn waiting(&self) -> usize
        ensures { result ≡ self.now.came - self.now.read }
    {
        self.came - self.read
    }

    /// How many were read.
    pub(crate) fn read(&self) -> usize
        ensures { result ≡ self.now.read }
    {
        self.read
    }

    /// Whether each that came was read.
    pub(crate) fn are_read(&self) -> bool
        ensures { result ≡ (self.now.read == self.now.came) }
    {
        self.read == self.came
    }

    /// The next one that came, which is read now.
    pub(crate) fn next(&mut self) -> Option<CommandWord>
        ensures some { IfSome result (λ word. self.old.read < self.old.came) }
        ensures next { IfSome result (λ word. self.old.unread ≡ word ∷ self.new.unread) }
        ensures rest { IfSome result
            (λ word.
            self.new ≡ record self.old { unread = self.new.unread; read = self.old.read + 1 }) }
        ensures none { IfNone result (self.old.read ≡ self.old.came) }
        ensures same { IfNone result (self.new ≡ self.old) }
    {
        if self.read == self.came {
            return None;
        }
        match self.unread.pop_front() {
            Some(word) => {
                self.read += 1;
                Some(word)
            }
            None => unreachable!(),
        }
    }
}
