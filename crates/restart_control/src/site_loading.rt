//! Loads the site that a configuration makes of a store.
ghost use Rattle.std.specs.Prelude.{◌≡◌, map, IfOk, IfSome};
ghost use Rattle.file_table.specs.Load.{IsWithinLimits, LeavesStore, MayLoad};
ghost use Rattle.file_table.specs.Site.{IsLoadable};
ghost use Rattle.restart_control.specs.Reload.{host_order, order_of};
ghost use Rattle.restart_control.specs.ReloadInside.{fault_for};

use crate::reload_fault::ReloadFault;
use file_table::{HostOrder, HostOrders, LoadFault, Marks, Site, SiteOrder, load};
use mpm_base::{Names, NoMemory, Octets, Store};
use mpm_config::{Config, HostConf, HostConfs};
use std::alloc::Global;

/// The site of the files under the roots of the configuration's hosts, with the status page where ServerStatus says so, the marks of
/// FileETag and LastModified, and its types. TooMany or TooLarge where they are more, or larger, than a site takes, StoreFault where a
/// call of the store failed, NoMemory where memory lacks.
pub fn load_site<D: Store>(alloc: Global, store: &mut D, config: &Config) -> Result<Site, LoadFault>
    ensures leaves { LeavesStore (D.seen store.old) (D.seen store.new) result }
    ensures site { IfSome (D.seen store.old).told (λ t.
        MayLoad (order_of config.entry.now) t.files result) }
    ensures limits { IfOk result IsWithinLimits }
{
    let Ok(order) = site_order(alloc, config) else {
        return Err(LoadFault::NoMemory);
    };
    load(alloc, store, &order)
}

/// A copy of the names.
fn names_of(alloc: Global, names: &Names) -> Result<Names, NoMemory>
    ensures { IfOk result (λ copy. copy ≡ names.now) }
{
    let mut copy = Names::make(alloc);
    for name in names.as_slice() {
        copy.push(Octets::of(alloc, name.as_slice())?)?;
    }
    Ok(copy)
}

/// What is wanted of the host.
fn host_order(alloc: Global, host: &HostConf) -> Result<HostOrder, NoMemory>
    ensures { IfOk result (λ order. order ≡ host_order host.now) }
{
    Ok(HostOrder {
        names: names_of(alloc, &host.names)?,
        root: Octets::of(alloc, host.root.as_slice())?,
        index: Octets::of(alloc, host.index.as_slice())?,
    })
}

/// What is wanted of each of the hosts.
fn host_orders(alloc: Global, confs: &HostConfs) -> Result<HostOrders, NoMemory>
    ensures { IfOk result (λ orders. orders ≡ map host_order confs.now) }
{
    let mut orders = HostOrders::make(alloc);
    for conf in confs.as_slice() {
        let order = host_order(alloc, conf)?;
        orders.push(order)?;
    }
    Ok(orders)
}

/// What a site is made of by the configuration.
fn order_of(alloc: Global, config: &Config) -> Result<SiteOrder, NoMemory>
    ensures { IfOk result (λ order. order ≡ order_of config.entry.now) }
{
    let hosts = host_orders(alloc, &config.hosts)?;
    let types = config.types.copy(alloc)?;
    Ok(SiteOrder {
        hosts,
        status: config.status,
        marks: Marks {
            tags: config.tags,
            times: config.times,
        },
        types,
    })
}

/// The same, which can be loaded.
pub(crate) fn site_order(alloc: Global, config: &Config) -> Result<SiteOrder, NoMemory>
    ensures order { IfOk result (λ order. order ≡ order_of config.entry.now) }
    ensures loadable { IfOk result IsLoadable }
{
    config.show();
    order_of(alloc, config)
}

/// The fault of a restart for that of its site, where the DocumentRoot is that root.
pub(crate) fn fault_for(fault: LoadFault, root: Octets) -> ReloadFault
    ensures { result ≡ fault_for fault root }
{
    match fault {
        LoadFault::StoreFault => ReloadFault::StoreFault,
        LoadFault::NoMemory => ReloadFault::NoMemory,
        LoadFault::TooMany(named) => ReloadFault::Load(LoadFault::TooMany(named), root),
        LoadFault::TooLarge(name, size) => {
            ReloadFault::Load(LoadFault::TooLarge(name, size), root)
        }
    }
}
