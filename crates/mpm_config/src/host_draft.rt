//! The settings of the section of a host as it is read.
ghost use Rattle.std.specs.Prelude.{◌≡◌, ◌++◌, length, unwrap_or, if◌then◌else◌, Some, None, IfOk, OnOk};
ghost use Rattle.mpm_config.specs.HostName.{aliases_of};
ghost use Rattle.mpm_config.specs.Settings.{empty_host, with_host_setting};
ghost use Rattle.conf_text.specs.Words.{words};

use crate::host_conf::HostConf;
use crate::host_name::server_name;
use crate::setting::Setting;
use conf_text::{First, first_word};
use mpm_base::{Names, NoMemory, Octets};
use name_hosts::without_point;
use std::alloc::Global;
use std::marker::Model;

/// What the lines of the section of a host have set.
#[derive(Debug, Drop)]
pub struct HostDraft {
    name: Names,
    aliases: Names,
    root: Option<Octets>,
    index: Option<Octets>,
}

impl Model for HostDraft {
    ghost use Rattle.mpm_config.specs.Settings.{HostSettings};
    ghost use Rattle.mpm_config.specs.SettingsInside.{IsKeptHost};

    ghost Value = { HostSettings };

    ghost view = { λ h. record {
      name = h.name;
      aliases = h.aliases;
      root = h.root;
      index = h.index;
    } };

    ghost invariant = { λ h. IsKeptHost h.root h.index };
}

impl HostDraft {
    /// The settings of a section in which nothing stands. Takes no memory.
    pub fn empty(alloc: Global) -> HostDraft
        ensures { result ≡ empty_host }
    {
        HostDraft {
            name: Names::make(alloc),
            aliases: Names::make(alloc),
            root: None,
            index: None,
        }
    }

    /// Sets what a directive sets, where it may stand in such a section: answers whether it may.
    pub fn set(&mut self, alloc: Global, setting: Setting, value: &str) -> Result<bool, NoMemory>
        ensures { IfOk result (λ may. with_host_setting self.old value.now setting
            ≡ (if may then Some self.new else None)) }
    {
        match setting {
            Setting::DocumentRoot => self.root = Some(Octets::of(alloc, value.as_bytes())?),
            Setting::DirectoryIndex => self.index = Some(Octets::of(alloc, value.as_bytes())?),
            Setting::ServerName => {
                let mut name = Names::make(alloc);
                name.push(Octets::of(alloc, server_name(value.as_bytes()))?)?;
                self.name = name;
            }
            _ => return Ok(false),
        }
        Ok(true)
    }

    /// Adds the words of a line to its names.
    pub fn add_aliases(&mut self, alloc: Global, line: &str) -> Result<(), NoMemory>
        ensures { OnOk result (self.new
            ≡ record self.old { aliases = self.old.aliases ++ aliases_of (words line.now) }) }
    {
        let mut rest = line;
        while let First::Closed(name, after) = first_word(rest) {
            let name = Octets::of(alloc, without_point(name.as_bytes()))?;
            self.aliases.push(name)?;
            rest = after;
        }
        Ok(())
    }

    /// How many aliases there are.
    pub fn count(&self) -> usize
        ensures { result ≡ length self.now.aliases }
    {
        self.aliases.len()
    }

    /// The host of the settings; what it lacks is the outer root or index.
    pub fn conf(&self, alloc: Global, root: &[u8], index: &[u8]) -> Result<HostConf, NoMemory>
        ensures { IfOk result (λ conf. conf ≡ record {
          names = self.now.name ++ self.now.aliases;
          root = unwrap_or self.now.root root.now;
          index = unwrap_or self.now.index index.now;
        }) }
    {
        let mut names = Names::make(alloc);
        add_names(alloc, &mut names, &self.name)?;
        add_names(alloc, &mut names, &self.aliases)?;
        let root = Octets::of(alloc, or_outer(&self.root, root))?;
        let index = Octets::of(alloc, or_outer(&self.index, index))?;
        Ok(HostConf { names, root, index })
    }
}

/// Puts copies of the names behind the others.
fn add_names(alloc: Global, names: &mut Names, more: &Names) -> Result<(), NoMemory>
    ensures { OnOk result (names.new ≡ names.old ++ more.now) }
{
    for name in more.as_slice() {
        names.push(Octets::of(alloc, name.as_slice())?)?;
    }
    Ok(())
}

/// What was set, or else the outer value.
fn or_outer<'a>(own: &'a Option<Octets>, outer: &'a [u8]) -> &'a [u8]
    ensures { result.now ≡ unwrap_or own.now outer.now }
{
    match own {
        Some(own) => own.as_slice(),
        None => outer,
    }
}
