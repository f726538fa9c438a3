//! What the connections of a generation are served by, and what a server opened by.
ghost use Rattle.std.specs.Prelude.{◌≡◌, IfOk};

use file_table::Site;
use http_read::Limits;
use mpm_base::NoMemory;
use mpm_config::Config;
use std::sync::Arc;

/// What a generation works by, besides its shape, which the table knows.
#[derive(Drop)]
pub struct LoadedEdition {
    /// The limits of the heads of requests.
    pub limits: Limits,
    /// The files that are served. Each connection has a share of them, so they are kept as long as one of the generation is open.
    pub site: Arc<Site>,
    /// GracefulShutdownTimeout in milliseconds, 0 to 65,535,000; 0 stands for no limit.
    pub stop_ms: u64,
}

impl LoadedEdition {
    /// A further share of the site. Refused where the site has as many shares as can be counted.
    pub(crate) fn share(&self) -> Result<Arc<Site>, NoMemory>
        ensures { IfOk result (λ site. site.value ≡ self.now.site.value) }
    {
        match Arc::try_clone(&self.site) {
            Ok(site) => Ok(site),
            Err(_) => Err(NoMemory),
        }
    }
}

/// The configuration by which a server opened, and its name in the store, where each restart reads it anew.
#[derive(Clone, Copy)]
pub struct NamedConfig<'a> {
    /// The name.
    pub name: &'a str,
    /// The configuration, whose ServerLimit and ThreadLimit each later generation keeps.
    pub config: &'a Config,
}
