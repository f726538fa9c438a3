//! A configuration.
ghost use Rattle.std.specs.Prelude.{◌≡◌, ◌≤◌, true};

use crate::correction::correct;
use crate::host_conf::HostConfs;
use crate::numbers::Numbers;
use media_types::MediaTypes;
use mpm_base::{Addr, Octets, Shape};
use std::marker::Model;

/// What a text configures. Each number in `written` is in the range of its directive, `now` is what the
/// corrections make of `written`, and `root` and `index` are UTF-8.
#[derive(Debug, Drop)]
pub struct Config {
    /// The numbers as they were written, before the corrections.
    pub written: Numbers,
    /// The numbers after the corrections.
    pub now: Numbers,
    /// Listen: where the server listens.
    pub listen: Addr,
    /// ControlListen: the port of the control line on 127.0.0.1, where there is one.
    pub control: Option<u16>,
    /// DocumentRoot, without a `/` at its ends.
    pub root: Octets,
    /// DirectoryIndex, without a `/`.
    pub index: Octets,
    /// FileETag: whether files have entity tags.
    pub tags: bool,
    /// LastModified: whether the times at which files were changed count.
    pub times: bool,
    /// AddType, MimeTable and AddDefaultCharset: by what files get their types.
    pub types: MediaTypes,
    /// ServerStatus: whether the status page is served.
    pub status: bool,
    /// TransferLog: the name of the log, where there is one.
    pub log: Option<String>,
    /// The hosts: those of the sections, or else the one outside of such sections; 1 to 64.
    pub hosts: HostConfs,
}

impl Model for Config {
    ghost use Rattle.std.specs.Prelude.{option_map};
    ghost use Rattle.std.specs.String.{string_bytes};
    ghost use Rattle.mpm_config.specs.Config.{Configuration, IsConfiguration};

    ghost Value = { Configuration };

    ghost view = { λ c. record {
      written = c.written;
      current = c.now;
      listen = c.listen;
      control = c.control;
      root = c.root;
      index = c.index;
      tags = c.tags;
      times = c.times;
      types = c.types;
      status = c.status;
      log = option_map string_bytes c.log;
      hosts = c.hosts;
    } };

    ghost invariant = { λ c. IsConfiguration c.written c.now c.root c.index c.hosts };
}

ghost use Rattle.mpm_config.specs.Config.{with_limits, IsConfiguration};
ghost use Rattle.mpm_base.specs.Shape.{is_in_bounds};
ghost use Rattle.mpm_config.specs.Shape.{shape_of_numbers};

impl Config {
    /// What every configuration keeps, for callers that see it as one value. It does nothing.
    pub fn show(&self)
        ensures { let c = self.entry.now in
            IsConfiguration c.written c.current c.root c.index c.hosts }
    {
        let _ = &self.written;
    }
}

/// Gives a new configuration the two limits of the old one, which a restart keeps, and corrects it again.
pub fn carry_limits(old: &Config, new: &mut Config)
    ensures { new.new ≡ with_limits old.entry.now new.old }
{
    let mut written = new.written;
    written.server_limit = old.written.server_limit;
    written.thread_limit = old.written.thread_limit;
    new.written = written;
    new.now = correct(&written);
}

/// What the table of connections works by under the numbers.
fn shape_by(now: &Numbers) -> Shape
    requires { 1 ≤ now.now.threads }
    ensures { result ≡ shape_of_numbers now.now }
{
    Shape {
        threads: now.threads,
        factor: now.factor,
        read_ms: now.timeout_ms,
        keep_ms: now.keep_ms,
        keep: now.keep,
        most: now.most,
        target: now.start_servers,
        children: now.max_workers / now.threads,
        whole_ms: now.whole_ms,
    }
}

/// What the table of connections works by.
pub fn shape_of(config: &Config) -> Shape
    ensures value { result ≡ shape_of_numbers config.entry.now.current }
    ensures bounds { is_in_bounds result ≡ true }
{
    shape_by(&config.now)
}
