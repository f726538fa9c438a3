//! What a path names.
use mpm_base::Octets;

/// What a path names in a site.
#[derive(Debug, Drop)]
pub enum Found {
    /// The file at this place, from 0, in the order of names.
    File(u32),
    /// A folder whose path lacks its slash: the path with it (RFC 9110, section 15.4.2).
    Redirect(Octets),
    /// Nothing.
    Missing,
    /// The path isn't one.
    BadPath,
}
