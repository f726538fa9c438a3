//! The numbers that a run works by.
ghost use Rattle.std.specs.Prelude.{◌≡◌};
ghost use Rattle.listener_round.specs.FirstNumbers as spec;
ghost use Rattle.listener_round.specs.FirstNumbersInside.{AreNumbers};
ghost use Rattle.listener_round.specs.Generations as generations;

use http_read::Limits;
use mpm_base::{Addr, Shape};
use mpm_config::{Config, shape_of};

/// The numbers of a run.
#[derive(Clone, Copy)]
pub struct RunNumbers {
    /// How many slots the table has, from 1 to 8,192.
    pub slots: u32,
    /// How many child numbers there are, from 1 to 32.
    pub children: u32,
    /// How many passes there are, the listener's and those that serve, from 2 to 4,099.
    pub passes: u32,
    /// What the children are started with.
    pub shape: Shape,
    /// Where connections are taken.
    pub listen: Addr,
    /// The port of the command lines on 127.0.0.1, where there is one.
    pub control: Option<u16>,
}

/// How many connections there is a place for.
const SLOTS: u32 = 8192;

/// The numbers of a run by the configuration: it has as many child numbers as ServerLimit says.
pub fn numbers_of(config: &Config) -> RunNumbers
    ensures value { result ≡ spec.numbers_of config.entry.now }
    ensures allowed { AreNumbers result }
{
    RunNumbers {
        slots: SLOTS,
        children: config.now.server_limit,
        passes: 2,
        shape: shape_of(config),
        listen: config.listen,
        control: config.control,
    }
}

/// How long the head of a request may be by the configuration.
pub fn head_limits_of(config: &Config) -> Limits
    ensures { result ≡ generations.head_limits_of config.entry.now }
{
    Limits {
        line: config.now.line,
        field: config.now.field,
        fields: config.now.fields,
    }
}
