//! The status page: which target asks for it, and its text.
ghost use Rattle.std.specs.Prelude.{◌≡◌, IfOk, option_map};
ghost use Rattle.http_core.specs.StatusPage as spec;

use crate::target::query_of;
use mpm_base::{NoMemory, Octets, Page};
use scoreboard::{page_auto, page_html};
use std::alloc::Global;

/// Whether the path of a target is that of the status page.
pub fn is_status_path(path: Option<&[u8]>) -> bool
    ensures { result ≡ spec.is_status_path (option_map (λ p. p.now) path.entry) }
{
    match path {
        Some(path) => path == b"/server-status".as_slice(),
        None => false,
    }
}

/// Whether the target asks for the page as plain text.
pub fn asks_for_text(target: &[u8]) -> bool
    ensures { result ≡ spec.asks_for_text target.now }
{
    query_of(target) == b"auto".as_slice()
}

/// The media type of the page.
pub fn page_type(auto: bool) -> &'static [u8]
    ensures { result.now ≡ spec.page_type auto }
{
    if auto { b"text/plain" } else { b"text/html" }
}

/// The text of the page, which is empty where there is nothing to show.
pub fn page_text(alloc: Global, auto: bool, page: &Option<Page>) -> Result<Octets, NoMemory>
    ensures { IfOk result (λ text. text ≡ spec.page_text auto page.now) }
{
    match page {
        Some(page) if auto => page_auto(alloc, page.snapshot()),
        Some(page) => page_html(alloc, page.snapshot()),
        None => Ok(Octets::make(alloc)),
    }
}
