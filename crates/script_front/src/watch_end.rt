//! How a watch of a front ended.

use mpm_base::ConnName;

/// How a watch ended: under which name the link was to be watched, and whether it is.
#[derive(Clone, Copy)]
pub(crate) struct WatchEnd {
    pub(crate) name: ConnName,
    pub(crate) answer: bool,
}
