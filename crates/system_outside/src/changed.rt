//! When a file was changed.
ghost use Rattle.std.specs.Prelude.{◌≡◌, IfErr};
ghost use Rattle.system_outside.specs.Changed.{second_for};

use mpm_base::Second;
use std::fs::Metadata;
use std::io;
use std::time::{SystemTime, UNIX_EPOCH};

/// The second of the time that the system told. Where it told none, as of a time before 1970, it is 0.
pub fn second_of(told: io::Result<SystemTime>) -> Second
    ensures { result ≡ second_for told }
{
    let Ok(time) = told else {
        return Second::of(0);
    };
    match time.duration_since(UNIX_EPOCH) {
        Ok(since) => Second::of(since.as_secs()),
        Err(_) => unreachable!(),
    }
}

/// The second in which the file was changed of which the system told this. 0 where it told nothing.
pub fn second_told(told: io::Result<Metadata>) -> Second
    ensures { IfErr told (λ _. result ≡ 0) }
{
    match told {
        Ok(metadata) => second_of(metadata.modified()),
        Err(_) => Second::of(0),
    }
}
