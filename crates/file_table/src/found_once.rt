//! What is found once of each file of a site: its tag and the place of its type.
ghost use Rattle.std.specs.Prelude.{◌≡◌, IfOk};
ghost use Rattle.file_table.specs.SiteInside.{AreFoundOnce, AreTagsOf, places_of, tags_of};
ghost use Rattle.file_table.specs.Tag as spec;

use crate::marks::Marks;
use crate::site_file::SiteFile;
use crate::tag::tag_of;
use media_types::TypeTable;
use mpm_base::{NoMemory, Octets, Sequence};
use std::alloc::Global;

/// The tags of files.
pub(crate) type Tags = Sequence<Octets>;

/// What was found of some files, in their order.
#[derive(Debug, Drop)]
pub(crate) struct FoundOnce {
    /// Their tags; none where files have none.
    pub tags: Tags,
    /// The places of their types.
    pub places: Vec<usize>,
}

/// The tag of the file: that which was made of its bytes, or else one that is made of them.
fn tag_for(alloc: Global, file: &SiteFile) -> Result<Octets, NoMemory>
    ensures { IfOk result (λ tag. tag ≡ spec.tag_of file.now.bytes) }
{
    match file.tag() {
        Some(tag) => Octets::of(alloc, tag),
        None => tag_of(alloc, file.bytes()),
    }
}

/// The tags of the files.
fn tags_of(alloc: Global, files: &[SiteFile]) -> Result<Tags, NoMemory>
    ensures { IfOk result (λ tags. tags ≡ tags_of files.now) }
{
    let mut tags = Tags::make(alloc);
    for file in files {
        tags.push(tag_for(alloc, file)?)?;
    }
    Ok(tags)
}

/// The tags of the files, where they have tags.
fn marked_tags(alloc: Global, marks: Marks, files: &[SiteFile]) -> Result<Tags, NoMemory>
    ensures { IfOk result (AreTagsOf marks files.now) }
{
    if marks.tags {
        tags_of(alloc, files)
    } else {
        Ok(Tags::make(alloc))
    }
}

/// The places of the types of the files.
fn places_of(alloc: Global, types: &TypeTable, files: &[SiteFile]) -> Result<Vec<usize>, NoMemory>
    ensures { IfOk result (λ places. places.items ≡ places_of types.now files.now) }
{
    let mut places = Vec::new(alloc);
    for file in files {
        places.push(types.place_of(file.name()))?;
    }
    Ok(places)
}

/// What is found of the files. A tag that a file shares with one of another site isn't made anew.
pub(crate) fn found_once(
    alloc: Global,
    marks: Marks,
    types: &TypeTable,
    files: &[SiteFile],
) -> Result<FoundOnce, NoMemory>
    ensures { IfOk result (λ found.
        AreFoundOnce marks types.now files.now found.tags found.places.items) }
{
    Ok(FoundOnce {
        tags: marked_tags(alloc, marks, files)?,
        places: places_of(alloc, types, files)?,
    })
}
