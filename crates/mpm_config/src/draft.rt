//! The settings of a text as it is read.
ghost use Rattle.std.specs.Prelude.{◌≡◌, ◌==◌, ◌<◌, if◌then◌else◌, ◌∷◌, [], ◌++◌, length, map, unwrap_or, IfOk, OnOk};
ghost use Rattle.conf_text.specs.Words.{words};
ghost use Rattle.mpm_config.specs.Config.{most_hosts};
ghost use Rattle.mpm_config.specs.Reading.{configuration_of, confs_by, host_conf_by, ConfigAndWarnings};
ghost use Rattle.mpm_config.specs.SettingInside.{IsSettable};
ghost use Rattle.mpm_config.specs.Settings.{charset_named, initial_settings, with_pairs, with_setting};
ghost use Rattle.type_words.specs.TypeWords.{pairs_of_words};

use crate::config::Config;
use crate::correction::{correct, warnings_of};
use crate::host_conf::{HostConf, HostConfs};
use crate::host_draft::HostDraft;
use crate::host_name::server_name;
use crate::numbers::Numbers;
use crate::range::PORT;
use crate::setting::Setting;
use crate::warning::Warnings;
use media_types::MediaTypes;
use mpm_base::{Addr, Names, NoMemory, Octets};
use std::alloc::Global;
use std::marker::Model;
use type_words::add_pairs;

/// What the directives so far have set.
#[derive(Debug, Drop)]
pub struct Draft {
    numbers: Numbers,
    listen: Addr,
    control: Option<u16>,
    root: Octets,
    index: Octets,
    tags: bool,
    times: bool,
    types: MediaTypes,
    status: bool,
    name: Names,
    log: Option<String>,
    hosts: Vec<HostDraft>,
}

impl Model for Draft {
    ghost use Rattle.std.specs.Prelude.{option_map};
    ghost use Rattle.std.specs.String.{string_bytes};
    ghost use Rattle.mpm_config.specs.Settings.{Settings};
    ghost use Rattle.mpm_config.specs.SettingsInside.{AreKept};

    ghost Value = { Settings };

    ghost view = { λ d. record {
      numbers = d.numbers;
      listen = d.listen;
      control = d.control;
      root = d.root;
      index = d.index;
      tags = d.tags;
      times = d.times;
      types = d.types;
      status = d.status;
      name = d.name;
      log = option_map string_bytes d.log;
      hosts = d.hosts.items;
    } };

    ghost invariant = { λ d. AreKept d.numbers d.root d.index d.hosts.items };
}

impl Draft {
    /// The settings of the empty text.
    pub fn initial(alloc: Global) -> Result<Draft, NoMemory>
        ensures { IfOk result (λ d. d ≡ initial_settings) }
    {
        Ok(Draft {
            numbers: Numbers::initial(),
            listen: Addr {
                host: [127, 0, 0, 1],
                port: PORT.default as u16,
            },
            control: None,
            root: Octets::of(alloc, "htdocs".as_bytes())?,
            index: Octets::of(alloc, "index.html".as_bytes())?,
            tags: false,
            times: false,
            types: MediaTypes::usual(alloc),
            status: true,
            name: Names::make(alloc),
            log: None,
            hosts: Vec::new(alloc),
        })
    }

    /// Sets what a directive sets.
    pub fn set(&mut self, alloc: Global, setting: Setting, value: &str) -> Result<(), NoMemory>
        requires { IsSettable setting }
        ensures { OnOk result (self.new ≡ with_setting self.old value.now setting) }
    {
        match setting {
            Setting::Number(quantity, number) => self.numbers.set(quantity, number),
            Setting::KeepAlive(keep) => self.numbers.keep = keep,
            Setting::Listen(addr) => self.listen = addr,
            Setting::ControlListen(port) => self.control = Some(port),
            Setting::DocumentRoot => self.root = Octets::of(alloc, value.as_bytes())?,
            Setting::DirectoryIndex => self.index = Octets::of(alloc, value.as_bytes())?,
            Setting::FileETag(tags) => self.tags = tags,
            Setting::LastModified(times) => self.times = times,
            Setting::MimeTable(long) => self.types.long = long,
            Setting::AddDefaultCharset(named) => {
                self.types.charset = charset_named(alloc, named, value)?;
            }
            Setting::ServerStatus(status) => self.status = status,
            Setting::ServerName => {
                let mut name = Names::make(alloc);
                name.push(Octets::of(alloc, server_name(value.as_bytes()))?)?;
                self.name = name;
            }
            Setting::TransferLog => self.log = Some(String::from_str(alloc, value)?),
        }
        Ok(())
    }

    /// Adds the pairs that the words of a line spell to those of the types.
    pub fn add_pairs(&mut self, alloc: Global, line: &str) -> Result<(), NoMemory>
        ensures { OnOk result (self.new ≡ with_pairs self.old (pairs_of_words (words line.now))) }
    {
        add_pairs(alloc, &mut self.types.added, line)
    }

    /// How many pairs of types there are.
    pub fn pair_count(&self) -> usize
        ensures { result ≡ length self.now.types.added }
    {
        self.types.added.len()
    }

    /// How many sections of hosts were closed.
    pub fn host_count(&self) -> usize
        ensures { result ≡ length self.now.hosts }
    {
        self.hosts.len()
    }

    /// Puts the host of a section that was closed behind the others, of which there are fewer than there may be.
    pub fn add_host(&mut self, host: HostDraft) -> Result<(), NoMemory>
        requires { length self.old.hosts < most_hosts }
        ensures { OnOk result (self.new ≡ record self.old { hosts = self.old.hosts ++ host ∷ [] }) }
    {
        match self.hosts.push(host) {
            Ok(()) => Ok(()),
            Err(_) => Err(NoMemory),
        }
    }

    /// The configuration of the settings, and its warnings.
    pub fn finish(self, alloc: Global) -> Result<(Config, Warnings), NoMemory>
        ensures { IfOk result
            (λ r. record { config = r.0; warnings = r.1 } ≡ configuration_of self) }
    {
        let Draft {
            numbers,
            listen,
            control,
            root,
            index,
            tags,
            times,
            types,
            status,
            name,
            log,
            hosts,
        } = self;
        let hosts = confs_of(
            alloc,
            hosts.as_slice(),
            name,
            root.as_slice(),
            index.as_slice(),
        )?;
        let warnings = warnings_of(alloc, &numbers)?;
        let config = Config {
            written: numbers,
            now: correct(&numbers),
            listen,
            control,
            root,
            index,
            tags,
            times,
            types,
            status,
            log,
            hosts,
        };
        Ok((config, warnings))
    }
}

/// The character set that a value names, where it names one.
fn charset_named(alloc: Global, named: bool, value: &str) -> Result<Option<Octets>, NoMemory>
    ensures { IfOk result (λ charset. charset ≡ charset_named named value.now) }
{
    if named {
        Ok(Some(Octets::of(alloc, value.as_bytes())?))
    } else {
        Ok(None)
    }
}

/// The one host where there is no section.
fn outer_conf(alloc: Global, names: Names, root: &[u8], index: &[u8]) -> Result<HostConf, NoMemory>
    ensures { IfOk result (λ conf. conf
        ≡ record { names = names; root = root.now; index = index.now }) }
{
    let root = Octets::of(alloc, root)?;
    let index = Octets::of(alloc, index)?;
    Ok(HostConf { names, root, index })
}

/// The hosts of these sections.
fn section_confs(
    alloc: Global,
    hosts: &[HostDraft],
    root: &[u8],
    index: &[u8],
) -> Result<HostConfs, NoMemory>
    ensures { IfOk result (λ confs. confs ≡ map (host_conf_by root.now index.now) hosts.now) }
{
    let mut confs = HostConfs::make(alloc);
    for host in hosts {
        let conf = host.conf(alloc, root, index)?;
        confs.push(conf)?;
    }
    Ok(confs)
}

/// The hosts of these sections; without one the outer one.
fn confs_of(
    alloc: Global,
    hosts: &[HostDraft],
    name: Names,
    root: &[u8],
    index: &[u8],
) -> Result<HostConfs, NoMemory>
    ensures { IfOk result (λ confs. confs ≡ confs_by name root.now index.now hosts.now) }
{
    if !hosts.is_empty() {
        return section_confs(alloc, hosts, root, index);
    }
    let mut confs = HostConfs::make(alloc);
    let outer = outer_conf(alloc, name, root, index)?;
    confs.push(outer)?;
    Ok(confs)
}
