//! By what clients may ask whether what they have of a file is still right.

/// Which marks the files of a site have, by which clients may ask whether what they have is still right (RFC 9110, section 8.8).
#[derive(Clone, Copy, Debug, PartialEq, Eq)]
pub struct Marks {
    /// FileETag: whether each file has an entity tag, which is made of its bytes (section 8.8.3).
    pub tags: bool,
    /// LastModified: whether the second in which a file was changed counts (section 8.8.2).
    pub times: bool,
}
