//! A place at which a file is, or was.
ghost use Rattle.std.specs.Prelude.{◌≡◌, Some, None, option_map};
ghost use Rattle.mpm_base.specs.Store.{lies_under};
ghost use Rattle.stand_ins.specs.FilesInside.{has_name, is_listed};

use mpm_base::{Content, Octets};

/// A place among files: the name of the file that was put there, and what it has, until it is removed.
#[derive(Drop)]
pub struct Slot {
    pub name: Octets,
    pub content: Option<Content>,
}

impl Slot {
    /// Whether there is a file of that name.
    pub(crate) fn has_name(&self, name: &[u8]) -> bool
        ensures { result ≡ has_name name.now self.now }
    {
        self.content.is_some() && self.name.as_slice() == name
    }

    /// Whether there is a file whose name lies below a folder.
    pub(crate) fn is_listed(&self, folder: &str) -> bool
        ensures { result ≡ is_listed folder.now self.now }
    {
        self.content.is_some() && is_under(self.name.as_slice(), folder)
    }

    /// The file has this.
    pub(crate) fn fill(&mut self, content: Content)
        ensures { self.new ≡ record self.old { content = Some content } }
    {
        self.content = Some(content);
    }

    /// There is no file any more.
    pub(crate) fn empty(&mut self)
        ensures { self.new ≡ record self.old { content = None } }
    {
        self.content = None;
    }

    /// What the file has, where there is one.
    pub(crate) fn kept(&self) -> Option<&Content>
        ensures { option_map (λ content. content.now) result ≡ self.now.content }
    {
        match &self.content {
            Some(content) => Some(content),
            None => None,
        }
    }
}

/// Whether a name lies below a folder.
fn is_under(name: &[u8], folder: &str) -> bool
    ensures { result ≡ lies_under folder.now name.now }
{
    let folder = folder.as_bytes();
    name.starts_with(folder) && name[folder.len()..].starts_with(b"/")
}
