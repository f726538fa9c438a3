//! Why a configuration is refused.
use mpm_base::NoMemory;
use thiserror::Error;

/// Why a text is no configuration. The number of a line counts from 1 and is that of the first line of
/// those that are joined.
#[derive(Clone, Copy, Debug, PartialEq, Eq, Error)]
pub enum ConfFault {
    /// The bytes aren't UTF-8, or hold a NUL: the place of the first such byte, from 0.
    #[error("byte {0} is not text")]
    NotText(u64),
    /// The line begins with the name of no directive.
    #[error("line {0} names no directive")]
    UnknownDirective(u64),
    /// The directive of the line has not exactly one value, or may not have that value.
    #[error("line {0} has a bad value")]
    BadValue(u64),
    /// The line begins with `<` and is no section, or closes none of that kind, or opens the section of a host where none may be; or
    /// its directive may not stand in the section of a host, or outside of one.
    #[error("line {0} is no section")]
    BadSection(u64),
    /// The section that the line opens is not closed; of several it is the innermost.
    #[error("the section of line {0} is not closed")]
    Unclosed(u64),
    /// The line opens a section in eight others.
    #[error("line {0} opens a section too deep")]
    TooDeep(u64),
    /// Memory was wanted and not found.
    #[error("out of memory")]
    NoMemory,
}

impl From<NoMemory> for ConfFault {
    ghost use Rattle.mpm_config.specs.declared.fault.ConfFault.TheVariants as fault;
    ghost use Rattle.std.specs.Prelude.{◌≡◌};

    ghost from_gives = { λ _ e. e ≡ fault.NoMemory };

    fn from(_: NoMemory) -> ConfFault {
        ConfFault::NoMemory
    }
}
