//! A file of a site. Sites share the bytes of files that are the same, and their tags.
//! Why it is so stands in docs/DECISIONS.md: 143, What editions of a site share.
ghost use Rattle.std.specs.Prelude.{◌≡◌, true, IfOk, IfSome};
ghost use Rattle.std.specs.Arc.{arc_value};
ghost use Rattle.mpm_base.specs.Moment.{IsSecond};
ghost use Rattle.file_table.specs.Tag as spec;

use crate::tag::tag_of;
use mpm_base::{NoMemory, Octets, Second};
use std::alloc::Global;
use std::marker::Model;
use std::sync::Arc;

/// The bytes of a file, and their tag, where one was made.
#[derive(Debug, Drop)]
pub struct Body {
    bytes: Octets,
    tag: Option<Octets>,
}

impl Model for Body {
    ghost use Rattle.std.specs.Prelude.{◌≡◌, ℕ, List, IfSome};
    ghost use Rattle.file_table.specs.Tag.{tag_of};

    ghost Value = { List ℕ };

    ghost view = { λ b. b.bytes };

    ghost invariant = { λ b. IfSome b.tag (λ tag. tag ≡ tag_of b.bytes) };
}

/// The tag of the bytes, where one is wanted.
fn wanted_tag(alloc: Global, bytes: &[u8], wanted: bool) -> Result<Option<Octets>, NoMemory>
    ensures { IfOk result (λ tag. IfSome tag (λ t. t ≡ spec.tag_of bytes.now)) }
{
    if wanted {
        Ok(Some(tag_of(alloc, bytes)?))
    } else {
        Ok(None)
    }
}

impl Body {
    /// These bytes, with their tag where one is wanted.
    pub(crate) fn of(alloc: Global, bytes: Octets, tagged: bool) -> Result<Arc<Body>, NoMemory>
        ensures { IfOk result (λ body. arc_value body ≡ bytes) }
    {
        let tag = wanted_tag(alloc, bytes.as_slice(), tagged)?;
        match Arc::new(alloc, Body { bytes, tag }) {
            Ok(body) => Ok(body),
            Err(_) => Err(NoMemory),
        }
    }

    /// Whether it has these bytes, and a tag where one is wanted.
    fn serves(&self, bytes: &[u8], tagged: bool) -> bool
        ensures { result ≡ true → self.now ≡ bytes.now }
    {
        (!tagged || self.tag.is_some()) && self.bytes.as_slice() == bytes
    }

    /// The bytes.
    fn bytes(&self) -> &[u8]
        ensures { result.now ≡ self.now }
    {
        self.bytes.as_slice()
    }

    /// Their tag, where one was made.
    fn tag(&self) -> Option<&[u8]>
        ensures { IfSome result (λ tag. tag.now ≡ spec.tag_of self.now) }
    {
        match &self.tag {
            Some(tag) => Some(tag.as_slice()),
            None => None,
        }
    }
}

/// A file: its name, which is UTF-8, its bytes, and when it was changed.
#[derive(Debug, Drop)]
pub struct SiteFile {
    name: Octets,
    body: Arc<Body>,
    second: Second,
}

impl Model for SiteFile {
    ghost use Rattle.std.specs.Arc.{arc_value};
    ghost use Rattle.mpm_base.specs.declared.store.File.{File};

    ghost Value = { File };

    ghost view = { λ f. record { name = f.name; bytes = arc_value f.body; second = f.second } };
}

impl SiteFile {
    /// A file of that name, which has these bytes.
    pub(crate) fn of(name: Octets, body: Arc<Body>, second: Second) -> SiteFile
        ensures { result ≡ record { name = name; bytes = arc_value body; second = second } }
    {
        SiteFile { name, body, second }
    }

    /// Its name.
    pub fn name(&self) -> &[u8]
        ensures { result.now ≡ self.now.name }
    {
        self.name.as_slice()
    }

    /// Its bytes.
    pub fn bytes(&self) -> &[u8]
        ensures { result.now ≡ self.now.bytes }
    {
        self.body.bytes()
    }

    /// The second in which it was changed.
    pub fn second(&self) -> u64
        ensures second { result ≡ self.now.second }
        ensures bound { IsSecond result }
    {
        self.second.number()
    }

    /// The tag of its bytes, where one was made.
    pub(crate) fn tag(&self) -> Option<&[u8]>
        ensures { IfSome result (λ tag. tag.now ≡ spec.tag_of self.now.bytes) }
    {
        self.body.tag()
    }

    /// What it has, where these are its bytes, and it has a tag where one is wanted.
    pub(crate) fn shared(&self, bytes: &[u8], tagged: bool) -> Option<Arc<Body>>
        ensures { IfSome result (λ body. arc_value body ≡ bytes.now) }
    {
        if self.body.serves(bytes, tagged) {
            self.body.clone().ok()
        } else {
            None
        }
    }
}
