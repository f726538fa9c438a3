//! The reader of a text: its lines in order, each in the sections that are open before it.
ghost use Rattle.std.specs.Prelude.{◌≡◌, ◌<◌, ◌≤◌, ◌-◌, [], IfOk, length, slice_get};
ghost use Rattle.mpm_config.specs.Reading.{adds_names, adds_pairs, after_line, assigns, close_section, close_shown, hides, in_hiding, in_sight, may_open_host, open_host, open_section, open_by_guard, sets, settings_of, start};
ghost use Rattle.mpm_config.specs.HostName.{aliases_of};
ghost use Rattle.mpm_config.specs.SettingInside.{IsSettable};
ghost use Rattle.conf_text.specs.Words.{words};
ghost use Rattle.mpm_config.specs.ReadingInside.{IsAnswer, LeadsTo};
ghost use Rattle.mpm_config.specs.Setting.{assignment};
ghost use Rattle.type_words.specs.TypeWords.{pairs_of_words};

use crate::draft::Draft;
use crate::fault::ConfFault;
use crate::form::{Form, Kind, form_of};
use crate::host_draft::HostDraft;
use crate::setting::{Assigned, Setting, Wrong, read_assignment};
use mpm_base::NoMemory;
use std::alloc::Global;
use std::marker::Model;

/// A section that is open.
#[derive(Clone, Copy, Debug)]
pub struct Section {
    /// The number of the line that opens it.
    pub line: u64,
    /// Of which kind it is.
    pub kind: Kind,
    /// Whether its guard holds; in a part that is skipped no guard is asked, and it stands as held.
    pub shown: bool,
}

/// As many sections may be open at once.
pub const GREATEST_DEPTH: usize = 8;

/// So many sections of hosts there may be.
const MOST_HOSTS: usize = 64;

/// So many names may stand behind ServerAlias in the section of a host.
const MOST_ALIASES: usize = 64;

/// So many pairs of types there may be.
const MOST_PAIRS: usize = 1_024;

/// What the lines so far have set and opened.
#[derive(Debug, Drop)]
pub struct Reader {
    draft: Draft,
    host: Option<HostDraft>,
    sections: Vec<Section>,
}

impl Model for Reader {
    ghost use Rattle.mpm_config.specs.Reading.{Progress};
    ghost use Rattle.mpm_config.specs.ReadingInside.{MayAddHost};

    ghost Value = { Progress };

    ghost view = { λ r. record { settings = r.draft; host = r.host; sections = r.sections.items } };

    ghost invariant = { λ r. MayAddHost r.draft r.host };
}

impl Reader {
    /// The reader before the first line.
    pub fn start(alloc: Global) -> Result<Reader, NoMemory>
        ensures { IfOk result (λ r. r ≡ start) }
    {
        Ok(Reader {
            draft: Draft::initial(alloc)?,
            host: None,
            sections: Vec::new(alloc),
        })
    }

    /// Whether the guard of some open section does not hold.
    fn hides(&self) -> bool
        ensures { result ≡ hides self.now.sections }
    {
        self.sections.iter().any(|section| !section.shown)
    }

    /// Opens a section of the kind.
    fn open(&mut self, line: u64, kind: Kind, shown: bool) -> Result<(), ConfFault>
        ensures { LeadsTo (open_section line kind shown self.old) self.new result }
    {
        if self.sections.len() >= GREATEST_DEPTH {
            return Err(ConfFault::TooDeep(line));
        }
        match self.sections.push(Section { line, kind, shown }) {
            Ok(()) => Ok(()),
            Err(_) => Err(ConfFault::NoMemory),
        }
    }

    /// Opens a section by its guard.
    fn open_by(&mut self, line: u64, guard: Option<bool>) -> Result<(), ConfFault>
        ensures { LeadsTo (open_by_guard line guard self.old) self.new result }
    {
        match guard {
            Some(shown) => self.open(line, Kind::Module, shown),
            None => Err(ConfFault::BadSection(line)),
        }
    }

    /// Whether the section of a further host may open.
    fn may_open_host(&self, right: bool) -> bool
        ensures { result ≡ may_open_host right self.now }
    {
        right && self.host.is_none() && self.draft.host_count() < MOST_HOSTS
    }

    /// Opens the section of a host.
    fn open_host(&mut self, alloc: Global, line: u64, right: bool) -> Result<(), ConfFault>
        ensures { LeadsTo (open_host line right self.old) self.new result }
    {
        if !self.may_open_host(right) {
            return Err(ConfFault::BadSection(line));
        }
        self.host = Some(HostDraft::empty(alloc));
        self.open(line, Kind::Host, true)
    }

    /// Closes the innermost section, which is of that kind.
    fn close(&mut self, line: u64, kind: Kind) -> Result<(), ConfFault>
        ensures { LeadsTo (close_section line kind self.old) self.new result }
    {
        match self.innermost() {
            Some(section) if section.kind == kind => {
                self.sections.pop();
                Ok(())
            }
            _ => Err(ConfFault::BadSection(line)),
        }
    }

    /// Closes a section that is shown. The host of its section is then one of the hosts.
    fn close_shown(&mut self, line: u64, kind: Kind) -> Result<(), ConfFault>
        ensures { LeadsTo (close_shown line kind self.old) self.new result }
    {
        self.close(line, kind)?;
        if kind == Kind::Host {
            if let Some(host) = self.host.take() {
                if self.draft.add_host(host).is_err() {
                    return Err(ConfFault::NoMemory);
                }
            }
        }
        Ok(())
    }

    /// Sets what a value spells, of the host whose section is open, or outside of such sections.
    fn set(
        &mut self,
        alloc: Global,
        number: u64,
        setting: Setting,
        value: &str,
    ) -> Result<(), ConfFault>
        requires { IsSettable setting }
        ensures { LeadsTo (sets number self.old setting value.now self.old.host) self.new result }
    {
        match &mut self.host {
            Some(host) => match host.set(alloc, setting, value) {
                Ok(true) => Ok(()),
                Ok(false) => Err(ConfFault::BadSection(number)),
                Err(_) => Err(ConfFault::NoMemory),
            },
            None => match self.draft.set(alloc, setting, value) {
                Ok(()) => Ok(()),
                Err(_) => Err(ConfFault::NoMemory),
            },
        }
    }

    /// Adds the words of a line to the names of the host whose section is open.
    fn add_names(&mut self, alloc: Global, number: u64, line: &str) -> Result<(), ConfFault>
        ensures { LeadsTo
            (adds_names number self.old (aliases_of (words line.now)) self.old.host)
            self.new result }
    {
        let Some(host) = &mut self.host else {
            return Err(ConfFault::BadSection(number));
        };
        if host.add_aliases(alloc, line).is_err() {
            return Err(ConfFault::NoMemory);
        }
        if host.count() > MOST_ALIASES {
            return Err(ConfFault::BadValue(number));
        }
        Ok(())
    }

    /// Adds the pairs that the words of a line spell to those of the types, which are of the whole server.
    fn add_pairs(&mut self, alloc: Global, number: u64, line: &str) -> Result<(), ConfFault>
        ensures { LeadsTo
            (adds_pairs number self.old (pairs_of_words (words line.now)) self.old.host)
            self.new result }
    {
        if self.host.is_some() {
            return Err(ConfFault::BadSection(number));
        }
        if self.draft.add_pairs(alloc, line).is_err() {
            return Err(ConfFault::NoMemory);
        }
        if self.draft.pair_count() > MOST_PAIRS {
            return Err(ConfFault::BadValue(number));
        }
        Ok(())
    }

    /// Does what the line of a directive does.
    fn assign(&mut self, alloc: Global, number: u64, line: &str) -> Result<(), ConfFault>
        ensures { LeadsTo (assigns number self.old (assignment line.now)) self.new result }
    {
        match read_assignment(line) {
            Ok(Assigned::One(setting, value)) => self.set(alloc, number, setting, value),
            Ok(Assigned::Names(names)) => self.add_names(alloc, number, names),
            Ok(Assigned::Pairs(pairs)) => self.add_pairs(alloc, number, pairs),
            Err(Wrong::Name) => Err(ConfFault::UnknownDirective(number)),
            Err(Wrong::Value) => Err(ConfFault::BadValue(number)),
        }
    }

    /// Reads a line where all open sections are shown.
    fn read_in_sight(
        &mut self,
        alloc: Global,
        number: u64,
        line: &str,
        form: Form,
    ) -> Result<(), ConfFault>
        ensures { LeadsTo (in_sight self.old (record { number = number; bytes = line.now }) form)
            self.new result }
    {
        match form {
            Form::Blank => Ok(()),
            Form::Opening(guard) => self.open_by(number, guard),
            Form::OpeningHost(right) => self.open_host(alloc, number, right),
            Form::Closing(kind) => self.close_shown(number, kind),
            Form::ClosingWithWord | Form::OtherSection => Err(ConfFault::BadSection(number)),
            Form::Directive => self.assign(alloc, number, line),
        }
    }

    /// Reads a line in a part that is skipped.
    fn read_in_hiding(&mut self, number: u64, line: &str, form: Form) -> Result<(), ConfFault>
        ensures { LeadsTo (in_hiding self.old (record { number = number; bytes = line.now }) form)
            self.new result }
    {
        match form {
            Form::Opening(_) => self.open(number, Kind::Module, true),
            Form::OpeningHost(_) => self.open(number, Kind::Host, true),
            Form::Closing(kind) => self.close(number, kind),
            Form::ClosingWithWord => Err(ConfFault::BadSection(number)),
            Form::Blank | Form::OtherSection | Form::Directive => Ok(()),
        }
    }

    /// Reads a line. After a refusal the reader is used no more.
    pub fn read_line(&mut self, alloc: Global, number: u64, line: &str) -> Result<(), ConfFault>
        ensures { LeadsTo (after_line self.old (record { number = number; bytes = line.now }))
            self.new result }
    {
        let form = form_of(line);
        if self.hides() {
            self.read_in_hiding(number, line, form)
        } else {
            self.read_in_sight(alloc, number, line, form)
        }
    }

    /// The innermost section that is open.
    fn innermost(&self) -> Option<Section>
        ensures { result ≡ slice_get self.now.sections (length self.now.sections - 1) }
    {
        self.sections.last().copied()
    }

    /// What was set, where no section is open.
    pub fn finish(self) -> Result<Draft, ConfFault>
        ensures { IsAnswer (settings_of self []) result }
    {
        if let Some(section) = self.innermost() {
            return Err(ConfFault::Unclosed(section.line));
        }
        let Reader {
            draft,
            host,
            sections,
        } = self;
        Ok(draft)
    }
}
