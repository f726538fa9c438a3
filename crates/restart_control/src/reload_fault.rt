//! Why a graceful restart makes no plan.
//! Why it is so stands in docs/DECISIONS.md: 112, What a refused restart tells of its site.
use file_table::LoadFault;
use mpm_base::Octets;
use mpm_config::ConfFault;
use thiserror::Error;

/// Why a graceful restart makes no plan.
#[derive(Debug, Drop, Error)]
pub enum ReloadFault {
    /// The store has no configuration of that name.
    #[error("no configuration")]
    Absent,
    /// The configuration is refused, one of more than 1,048,576 bytes as a bad value at 0. Never for want of memory.
    #[error("configuration: {0}")]
    Conf(ConfFault),
    /// The files are more, or larger, than a site takes: TooMany or TooLarge. With it comes the DocumentRoot of the configuration.
    #[error("site: {0}")]
    Load(LoadFault, Octets),
    /// A call of the store failed.
    #[error("the store failed")]
    StoreFault,
    /// Memory was wanted and not found.
    #[error("out of memory")]
    NoMemory,
}
