//! The editions of a script's site while its lines are read.
ghost use Rattle.std.specs.Prelude.{◌≡◌, [], ◌∷◌, ◌++◌, drop, IsUtf8, IfOk, OnOk, OnErr, if◌then◌else◌};
ghost use Rattle.mpm_script.specs.FileNames.{NamesText};
ghost use Rattle.stand_ins.specs.Files.{with_file, without_file};
ghost use Rattle.script_front.specs.DraftInside.{IsDraft};
ghost use Rattle.script_front.specs.Editions.{conf_after, conf_file, files_after, is_conf_name, set_at};

use mpm_base::{Moment, NoMemory, Octets, Second, SiteLine};
use stand_ins::History;
use std::alloc::Global;
use std::marker::Model;

/// The name of the configuration among the files of a script.
pub const CONF_NAME: &str = "httpd.conf";

/// The editions that ended, the configuration and the other files, as contracts see it. The configuration is put together from its
/// lines, and its file is set where an edition ends.
#[derive(Drop)]
pub(crate) struct Draft {
    history: History,
    conf: Octets,
    changed: bool,
    moment: Moment,
}

impl Model for Draft {
    ghost use Rattle.std.specs.Prelude.{drop};
    ghost use Rattle.script_front.specs.DraftInside.{IsDraft, SeenDraft};

    ghost Value = { SeenDraft };

    ghost view = { λ d. record {
      past = d.history.past;
      conf = d.conf;
      filed = record { moment = d.moment; files = drop 1 d.history.files };
    } };

    ghost invariant = { λ d. IsDraft d.history.files d.conf d.changed };
}

impl Draft {
    /// No edition ended, and there is no file but that of an empty configuration.
    pub(crate) fn make(alloc: Global) -> Result<Draft, NoMemory>
        ensures { IfOk result (λ draft. draft
            ≡ record { past = []; conf = []; filed = record { moment = 0; files = [] } }) }
    {
        let mut history = History::make(alloc);
        history.set(CONF_NAME, b"", Second::of(0))?;
        Ok(Draft {
            history,
            conf: Octets::make(alloc),
            changed: false,
            moment: 0,
        })
    }

    /// The lines from now on happen at that moment.
    pub(crate) fn go_to(&mut self, moment: Moment)
        ensures { self.new
            ≡ record self.old { filed = record self.old.filed { moment = moment } } }
    {
        self.moment = moment;
    }

    /// What the line of the site does happens.
    pub(crate) fn change(&mut self, site: &SiteLine) -> Result<(), NoMemory>
        requires { NamesText site.now }
        ensures { OnOk result (self.new ≡ record self.old {
          conf = conf_after self.old.conf site.now;
          filed = record self.old.filed {
            files = files_after self.old.filed.moment self.old.filed.files site.now;
          };
        }) }
    {
        match site {
            SiteLine::Conf(text) => self.add_conf(text.as_slice()),
            SiteLine::Clear => self.set_conf(b""),
            SiteLine::File(name, bytes) => self.set(name, bytes.as_slice()),
            SiteLine::Unfile(name) => self.unset(name),
        }
    }

    /// The files are the next edition.
    pub(crate) fn end(&mut self) -> Result<(), NoMemory>
        ensures { OnOk result (self.new ≡ record self.old {
          past = self.old.past ++ (conf_file self.old.conf ∷ self.old.filed.files) ∷ [];
        }) }
    {
        settle(&mut self.history, self.conf.as_slice(), self.changed)?;
        self.changed = false;
        self.history.end()?;
        Ok(())
    }

    /// What ended.
    pub(crate) fn into_history(self) -> History
        ensures { result.past ≡ self.past }
    {
        let Draft {
            history,
            conf: _,
            changed: _,
            moment: _,
        } = self;
        history
    }

    /// Puts a line at the end of the configuration.
    fn add_conf(&mut self, text: &[u8]) -> Result<(), NoMemory>
        ensures { OnOk result
            (self.new ≡ record self.old { conf = self.old.conf ++ (text.now ++ 10 ∷ []) }) }
    {
        self.changed = true;
        self.conf.add_pair(text, b"\n")
    }

    /// The configuration is this one.
    fn set_conf(&mut self, bytes: &[u8]) -> Result<(), NoMemory>
        ensures { OnOk result (self.new ≡ record self.old { conf = bytes.now }) }
    {
        self.changed = true;
        self.conf.clear();
        self.conf.add(bytes)
    }

    /// The file of that name has these bytes.
    fn set(&mut self, name: &Octets, bytes: &[u8]) -> Result<(), NoMemory>
        requires { IsUtf8 name.now }
        ensures { OnOk result (self.new ≡ record self.old {
          conf = if is_conf_name name.now then bytes.now else self.old.conf;
          filed = if is_conf_name name.now then self.old.filed else record self.old.filed {
            files = with_file name.now (set_at self.old.filed.moment bytes.now) self.old.filed.files;
          };
        }) }
    {
        if is_conf_name(name) {
            return self.set_conf(bytes);
        }
        let second = Second::at(self.moment);
        self.history.set(text_of(name.as_slice()), bytes, second)?;
        Ok(())
    }

    /// There is no such file any more; that of the configuration is empty.
    fn unset(&mut self, name: &Octets) -> Result<(), NoMemory>
        requires { IsUtf8 name.now }
        ensures { OnOk result (self.new ≡ record self.old {
          conf = if is_conf_name name.now then [] else self.old.conf;
          filed = if is_conf_name name.now then self.old.filed else record self.old.filed {
            files = without_file name.now self.old.filed.files;
          };
        }) }
    {
        if is_conf_name(name) {
            return self.set_conf(b"");
        }
        self.history.unset(text_of(name.as_slice()))?;
        Ok(())
    }
}

/// The configuration's file has these bytes, which is so where they didn't change. Where memory lacks nothing changes.
fn settle(history: &mut History, conf: &[u8], changed: bool) -> Result<(), NoMemory>
    requires { IsDraft history.old.files conf.now changed }
    ensures ok { OnOk result
        (history.new ≡ record history.old { files = conf_file conf.now ∷ drop 1 history.old.files }) }
    ensures err { OnErr result (history.new ≡ history.old) }
{
    if !changed {
        return Ok(());
    }
    history.set(CONF_NAME, conf, Second::of(0))
}

fn is_conf_name(name: &Octets) -> bool
    ensures { result ≡ is_conf_name name.now }
{
    CONF_NAME.as_bytes() == name.as_slice()
}

fn text_of(bytes: &[u8]) -> &str
    requires { IsUtf8 bytes.now }
    ensures { result.now ≡ bytes.now }
{
    match std::str::from_utf8(bytes) {
        Ok(text) => text,
        Err(_) => unreachable!(),
    }
}
