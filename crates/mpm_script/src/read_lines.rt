//! The lines of a script that were read, with what further ones have to agree with.
ghost use Rattle.std.specs.Prelude.{◌≡◌, suc, [], ◌∷◌, ◌++◌, length, true, IfErr, OnOk};
ghost use Rattle.mpm_script.specs.ReadLinesInside.{AreRead, DisagreesAt};
ghost use Rattle.mpm_script.specs.Script.{agrees};

use crate::agreement::{add_name, is_backwards, is_repeated, is_unknown, moment_after};
use crate::name_places::NamePlaces;
use crate::script::{Script, ScriptFault};
use mpm_base::{Moment, NoMemory, ScriptLine};
use std::alloc::Global;

/// The lines that were read, the names of the connections that they make, and the moment behind them.
#[derive(Drop)]
pub(crate) struct ReadLines {
    script: Script,
    names: NamePlaces,
    moment: Moment,
}

impl ReadLines {
    /// No line was read.
    pub(crate) fn make(alloc: Global) -> ReadLines
        ensures none { result.script ≡ [] }
        ensures read { AreRead result }
    {
        ReadLines {
            script: Script::make(alloc),
            names: NamePlaces::make(alloc),
            moment: 0,
        }
    }

    /// The number of the next line, from 1.
    pub(crate) fn next_number(&self) -> u64
        ensures { result ≡ suc (length self.now.script) }
    {
        self.script.lines().len() as u64 + 1
    }

    /// Refuses the line of that number where it doesn't agree with those that were read.
    pub(crate) fn check(&self, number: u64, line: &ScriptLine) -> Result<(), ScriptFault>
        requires { AreRead self.now }
        ensures ok { OnOk result (agrees self.now.script line.now ≡ true) }
        ensures err { IfErr result (DisagreesAt number self.now.script line.now) }
    {
        if is_repeated(&self.names, line) {
            return Err(ScriptFault::BadLine(number));
        }
        if is_backwards(self.moment, line) {
            return Err(ScriptFault::MomentBackwards(number));
        }
        if is_unknown(&self.names, line) {
            return Err(ScriptFault::UnknownName(number));
        }
        Ok(())
    }

    /// Puts the line behind those that were read.
    pub(crate) fn add(&mut self, alloc: Global, line: ScriptLine) -> Result<(), NoMemory>
        requires { AreRead self.old }
        ensures lines { OnOk result (self.new.script ≡ self.old.script ++ line ∷ []) }
        ensures read { OnOk result (AreRead self.new) }
    {
        self.moment = moment_after(self.moment, &line);
        add_name(alloc, &mut self.names, &line)?;
        self.script.add(line)?;
        Ok(())
    }

    /// The lines that were read.
    pub(crate) fn into_script(self) -> Script
        ensures { result ≡ self.script }
    {
        let ReadLines {
            script,
            names: _,
            moment: _,
        } = self;
        script
    }
}
