//! How many connections a configuration takes at its start.
ghost use Rattle.std.specs.Prelude.{◌≡◌, ◌↔◌, ℕ, ◌<◌, true};
ghost use Rattle.admission.specs.Admission.{has_room};

use mpm_base::{Shape, Store};
use mpm_config::{read_config, shape_of};
use std::alloc::Global;

/// How many bytes a configuration has at most.
const MOST_CONFIG: u64 = 1_048_576;

/// How many connections a table has at most.
const MOST_CONNECTIONS: u32 = 8192;

/// How many connections a server takes at its start by the configuration of that name in the store. None where the run will refuse that
/// configuration, or where memory lacks to read it here.
pub fn connections_by<D: Store>(alloc: Global, name: &str, store: &mut D) -> Option<u32> {
    let text = store.read_bytes(alloc, name, MOST_CONFIG).ok()?;
    let (config, _) = read_config(alloc, text.as_slice()).ok()?;
    Some(connections_of(shape_of(&config)))
}

/// How many connections the children that are there at the start take while all their workers are idle, but no more than a table has.
fn connections_of(shape: Shape) -> u32 {
    let most = capacity_of(shape.threads, shape.factor).saturating_mul(shape.target as u64);
    most.min(MOST_CONNECTIONS as u64) as u32
}

/// How many connections a child of so many workers takes while all of them are idle: it takes one more beside any smaller number. The
/// factor is AsyncRequestWorkerFactor in hundredths.
fn capacity_of(threads: u32, factor: u32) -> u64
    ensures { (count : ℕ) → (has_room threads factor threads count ≡ true) ↔ (count < result) }
{
    threads as u64 + (factor as u64 * threads as u64 + 99) / 100
}
