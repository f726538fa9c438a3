//! Writes texts to the output.
ghost use Rattle.mpm_base.specs.Count.{NeverFalls};
ghost use Rattle.run_report.specs.EndingsInside.{WritesAll};

use mpm_base::{Put, Sink};

/// Writes all the bytes. False where a write failed, and then some of them were not written.
pub fn write_all<K: Sink>(out: &mut K, bytes: &[u8]) -> bool
    ensures all { WritesAll (K.seen out.old) (K.seen out.new) bytes.now result }
    ensures faults { NeverFalls (K.seen out.old).faults (K.seen out.new).faults }
{
    let mut from = 0;
    while from < bytes.len() {
        match out.write(&bytes[from..]) {
            Put::Put(count) => from += count as usize,
            Put::Failed => return false,
        }
    }
    true
}
