//! The configuration of what a store answered.
ghost use Rattle.std.specs.Prelude.{◌≡◌, IfOk};
ghost use Rattle.std.specs.List.{flat_map};
ghost use Rattle.mpm_config.specs.Correction.{notice_text};
ghost use Rattle.run_opening.specs.ConfiguredInside.{IsConfigFrom, IsConfigOf, IsRefusalFor};

use mpm_base::{NoMemory, Octets, StoreFault};
use mpm_config::{ConfFault, Config, Warning, read_config, warning_text};
use run_report::ConfigRefusal;
use std::alloc::Global;

/// Why there is no configuration.
#[derive(Clone, Copy)]
pub enum NoConfig {
    /// There is no such file.
    Missing,
    /// The call of the store failed.
    Failed,
    /// It is refused at that line, from 1, or at that place, from 0, where it is no text; at 0 where it is too large.
    Refused(ConfigRefusal, u64),
    /// Memory was wanted and not found.
    NoMemory,
}

/// The configuration of what a store answered to a read of at most 1,048,576 bytes, and what is told of its corrections.
pub fn config_from(
    alloc: Global,
    answer: Result<Octets, StoreFault>,
) -> Result<(Config, Octets), NoConfig>
    ensures { IsConfigFrom answer result }
{
    match answer {
        Ok(text) => config_of(alloc, &text),
        Err(StoreFault::Missing) => Err(NoConfig::Missing),
        Err(StoreFault::Failed) => Err(NoConfig::Failed),
        Err(StoreFault::Large(_)) => Err(NoConfig::Refused(ConfigRefusal::BadValue, 0)),
        Err(StoreFault::Many | StoreFault::NoMemory) => Err(NoConfig::NoMemory),
    }
}

/// The configuration of the text, and what is told of its corrections.
fn config_of(alloc: Global, text: &Octets) -> Result<(Config, Octets), NoConfig>
    ensures { IsConfigOf text.now result }
{
    let (config, warnings) = match read_config(alloc, text.as_slice()) {
        Ok(read) => read,
        Err(fault) => return Err(refusal_for(fault)),
    };
    match warnings_text(alloc, warnings.as_slice()) {
        Ok(told) => Ok((config, told)),
        Err(NoMemory) => Err(NoConfig::NoMemory),
    }
}

/// Why there is none for that fault of its text.
fn refusal_for(fault: ConfFault) -> NoConfig
    ensures { IsRefusalFor fault result }
{
    match fault {
        ConfFault::NotText(place) => NoConfig::Refused(ConfigRefusal::NotText, place),
        ConfFault::UnknownDirective(line) => NoConfig::Refused(
            ConfigRefusal::UnknownDirective,
            line,
        ),
        ConfFault::BadValue(line) => NoConfig::Refused(ConfigRefusal::BadValue, line),
        ConfFault::BadSection(line) => NoConfig::Refused(ConfigRefusal::BadSection, line),
        ConfFault::Unclosed(line) => NoConfig::Refused(ConfigRefusal::Unclosed, line),
        ConfFault::TooDeep(line) => NoConfig::Refused(ConfigRefusal::TooDeep, line),
        ConfFault::NoMemory => NoConfig::NoMemory,
    }
}

/// A line for each of the warnings.
fn warnings_text(alloc: Global, warnings: &[Warning]) -> Result<Octets, NoMemory>
    ensures { IfOk result (λ text. text ≡ flat_map notice_text warnings.now) }
{
    let mut text = Octets::make(alloc);
    for warning in warnings {
        let line = warning_text(alloc, warning)?;
        text.add(line.as_slice())?;
    }
    Ok(text)
}
