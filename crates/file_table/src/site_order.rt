//! What a site is made of.
ghost use Rattle.std.specs.Prelude.{◌≡◌, IfOk};
ghost use Rattle.file_table.specs.Site.{IsLoadable, one_host};

use crate::marks::Marks;
use media_types::MediaTypes;
use mpm_base::{Names, NoMemory, Octets, Sequence};
use std::alloc::Global;

/// What is wanted of one host.
#[derive(Debug, Drop)]
pub struct HostOrder {
    /// Its names, without a port or a point at the end.
    pub names: Names,
    /// The name of the folder whose files it has, without a slash at its end; UTF-8.
    pub root: Octets,
    /// The name of the file that stands for a folder.
    pub index: Octets,
}

/// What is wanted of each host, in order.
pub type HostOrders = Sequence<HostOrder>;

/// What a site is made of: its hosts, of which the first has what is asked for by a name that none has, and what is of the whole site.
#[derive(Debug, Drop)]
pub struct SiteOrder {
    /// The hosts: one at least.
    pub hosts: HostOrders,
    /// Whether the status page is served.
    pub status: bool,
    /// Which marks the files have.
    pub marks: Marks,
    /// By what they get their types.
    pub types: MediaTypes,
}

impl SiteOrder {
    /// One host without a name, which has the files under that folder, without marks and by the usual types.
    pub fn one_host(
        alloc: Global,
        root: &str,
        index: &str,
        status: bool,
    ) -> Result<SiteOrder, NoMemory>
        ensures order { IfOk result (λ order. order ≡ one_host root.now index.now status) }
        ensures loadable { IfOk result IsLoadable }
    {
        let root = Octets::of(alloc, root.as_bytes())?;
        let index = Octets::of(alloc, index.as_bytes())?;
        let mut hosts = HostOrders::make(alloc);
        hosts.push(HostOrder {
            names: Names::make(alloc),
            root,
            index,
        })?;
        Ok(SiteOrder {
            hosts,
            status,
            marks: Marks {
                tags: false,
                times: false,
            },
            types: MediaTypes::usual(alloc),
        })
    }
}
