//! Makes the configuration and the site of a new generation.
//! Why it is so stands in docs/DECISIONS.md: 20, What a restart that makes no plan answers.
ghost use Rattle.std.specs.Prelude.{◌≡◌, IfOk, IfSome, MatchResult};
ghost use Rattle.file_table.specs.Load.{IsWithinLimits, LeavesStore, MayLoad};
ghost use Rattle.mpm_base.specs.Store.{Renews};
ghost use Rattle.restart_control.specs.Reload.{HasCause, IsPlan, order_of};

use crate::reading::read_named;
use crate::reload_fault::ReloadFault;
use crate::site_loading::{fault_for, site_order};
use file_table::{LoadFault, Site, load_again};
use mpm_base::Store;
use mpm_config::{Config, carry_limits};
use std::alloc::Global;

/// What a new generation works by.
#[derive(Debug, Drop)]
pub struct Plan {
    /// Its configuration, with the two limits of the running server. Listen and ControlListen are those that were read, which a running
    /// server doesn't change.
    pub config: Config,
    /// The files that it serves.
    pub site: Site,
}

/// The site that the configuration makes of the store, which follows that one: a tag that is still right is taken over from there.
fn load_behind<D: Store>(
    alloc: Global,
    store: &mut D,
    config: &Config,
    site: &Site,
) -> Result<Site, LoadFault>
    ensures leaves { LeavesStore (D.seen store.old) (D.seen store.new) result }
    ensures site { IfSome (D.seen store.old).told (λ t.
        MayLoad (order_of config.entry.now) t.files result) }
    ensures limits { IfOk result IsWithinLimits }
{
    let Ok(order) = site_order(alloc, config) else {
        return Err(LoadFault::NoMemory);
    };
    load_again(alloc, store, &order, site)
}

/// Goes to the next edition of the store, once, and makes a plan of it: the configuration of that name, which keeps ServerLimit and
/// ThreadLimit of the old one and is corrected again, and the site of the files under the roots of its hosts. The warnings of the configuration
/// are dropped. The store is renewed even where there is no plan. Absent where the store has no such file; Conf where it is refused, and
/// as a bad value at 0 where it has more than 1,048,576 bytes; Load where its files are more, or larger, than a site takes; StoreFault
/// where a call of the store failed; NoMemory where memory lacks. The plan is the same whatever the running server's site is.
pub fn reload<D: Store>(
    alloc: Global,
    store: &mut D,
    name: &str,
    old: &Config,
    site: &Site,
) -> Result<Plan, ReloadFault>
    ensures store { Renews (D.seen store.old) (D.seen store.new) }
    ensures answer { MatchResult result
        (IsPlan (D.seen store.new).told name.now old.entry.now)
        (HasCause (D.seen store.new).told name.now old.entry.now (D.seen store.old).counts (D.seen store.new).counts) }
{
    store.renew();
    let mut config = match read_named(alloc, store, name) {
        Ok((config, _)) => config,
        Err(fault) => return Err(fault),
    };
    carry_limits(old, &mut config);
    match load_behind(alloc, store, &config, site) {
        Ok(site) => Ok(Plan { config, site }),
        Err(fault) => {
            let Config { root, .. } = config;
            Err(fault_for(fault, root))
        }
    }
}
