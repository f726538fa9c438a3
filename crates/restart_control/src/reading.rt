//! Reads the configuration of a name in a store.
ghost use Rattle.std.specs.Prelude.{◌≡◌, MatchResult, Ok};
ghost use Rattle.mpm_config.specs.Reading as reading;
ghost use Rattle.restart_control.specs.Reload.{HasAccepted, HasText};
ghost use Rattle.restart_control.specs.ReloadInside.{IsNoConfig, IsUnread, StoreStays};

use crate::reload_fault::ReloadFault;
use mpm_base::{Octets, Store, StoreFault};
use mpm_config::{ConfFault, Config, Warnings, read_config};
use std::alloc::Global;

/// The most bytes that a configuration may have.
pub const MOST_CONFIG: u64 = 1_048_576;

/// The configuration of that name, and its warnings.
pub(crate) fn read_named<D: Store>(
    alloc: Global,
    store: &mut D,
    name: &str,
) -> Result<(Config, Warnings), ReloadFault>
    ensures store { StoreStays (D.seen store.old) (D.seen store.new) }
    ensures read { MatchResult result
        (λ read. HasAccepted (D.seen store.old).told name.now (record { config = read.0; warnings = read.1 }))
        (IsUnread (D.seen store.old).told name.now (D.seen store.old).counts (D.seen store.new).counts) }
{
    let text = match read_text(alloc, store, name) {
        Ok(text) => text,
        Err(fault) => return Err(fault),
    };
    config_of(alloc, text.as_slice())
}

/// The text of the configuration of that name.
fn read_text<D: Store>(alloc: Global, store: &mut D, name: &str) -> Result<Octets, ReloadFault>
    ensures store { StoreStays (D.seen store.old) (D.seen store.new) }
    ensures text { MatchResult result
        (HasText (D.seen store.old).told name.now)
        (IsUnread (D.seen store.old).told name.now (D.seen store.old).counts (D.seen store.new).counts) }
{
    match store.read_bytes(alloc, name, MOST_CONFIG) {
        Ok(text) => Ok(text),
        Err(StoreFault::Missing) => Err(ReloadFault::Absent),
        Err(StoreFault::Large(_)) => Err(ReloadFault::Conf(ConfFault::BadValue(0))),
        Err(StoreFault::Failed) => Err(ReloadFault::StoreFault),
        Err(StoreFault::NoMemory) => Err(ReloadFault::NoMemory),
        Err(StoreFault::Many) => unreachable!(),
    }
}

/// The configuration of the text, and its warnings.
fn config_of(alloc: Global, text: &[u8]) -> Result<(Config, Warnings), ReloadFault>
    ensures { MatchResult result
        (λ read. reading.config_of text.now ≡ Ok (record { config = read.0; warnings = read.1 }))
        (IsNoConfig text.now) }
{
    match read_config(alloc, text) {
        Ok(read) => Ok(read),
        Err(ConfFault::NoMemory) => Err(ReloadFault::NoMemory),
        Err(fault) => Err(ReloadFault::Conf(fault)),
    }
}
