//! A host of a configuration.
use mpm_base::{Names, Octets, Sequence};

/// What a text configures of one host.
#[derive(Debug, Drop)]
pub struct HostConf {
    /// ServerName and ServerAlias: its names, without a port or a point at the end.
    pub names: Names,
    /// DocumentRoot, without a `/` at its ends; UTF-8.
    pub root: Octets,
    /// DirectoryIndex, without a `/`; UTF-8.
    pub index: Octets,
}

/// The hosts of a configuration, in the order of their sections.
pub type HostConfs = Sequence<HostConf>;
