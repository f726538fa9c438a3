//! A part of a site's files.

/// The files that lie under one root, in the list of all files of a site: the place of the first, and how many.
#[derive(Clone, Copy, Debug, PartialEq, Eq)]
pub struct Part {
    pub first: u32,
    pub count: u32,
}
