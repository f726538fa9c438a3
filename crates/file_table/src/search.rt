//! The search of a name among names in their order, by halves.
ghost use Rattle.std.specs.Prelude.{◌≡◌, ◌++◌, ◌∷◌, [], true, false, nat_eq, List, ℕ};
ghost use Rattle.std.specs.Cmp.Lexicographic.{slice_cmp};
ghost use Rattle.std.specs.List.Sorted.{IsPartitionPoint, IsSortedByKey};
ghost use Rattle.std.specs.List.{starts_with};
ghost use Rattle.std.specs.Ordering.{nat_cmp};
ghost use Rattle.file_table.specs.Order.{IsInOrder, name_goes_before};
ghost use Rattle.file_table.specs.Resource.{has_files_under, place_of_file};

use crate::site_file::SiteFile;
use mpm_base::is_made_of;
use std::cmp::Ordering;

/// What has a name.
pub trait Named {
    ghost name_of: { Self → List ℕ };

    /// The name.
    fn name(&self) -> &[u8]
        ensures { result.now ≡ name_of self.now };
}

impl Named for SiteFile {
    ghost name_of = { λ file. file.name };

    fn name(&self) -> &[u8] {
        SiteFile::name(self)
    }
}

/// Whether the name goes before the one that is made of the two parts.
fn goes_before(name: &[u8], front: &[u8], back: &[u8]) -> bool
    ensures { result ≡ name_goes_before name.now (front.now ++ back.now) }
{
    if name.len() < front.len() {
        let shared = &front[..name.len()];
        return name.cmp(&shared).is_le();
    }
    let (head, rest) = name.split_at(front.len());
    match head.cmp(&front) {
        Ordering::Less => true,
        Ordering::Equal => rest.cmp(&back).is_lt(),
        Ordering::Greater => false,
    }
}

/// How many names, which are in their order, go before the one that is made of the two parts. It looks at some 17 of
/// 65,536.
pub fn count_before<T: Named>(items: &[T], front: &[u8], back: &[u8]) -> usize
    ensures { IsSortedByKey T.name_of (slice_cmp nat_cmp) items.now
        → IsPartitionPoint
        (λ (item : T). name_goes_before (T.name_of item) (front.now ++ back.now) ≡ true)
        (λ (item : T). name_goes_before (T.name_of item) (front.now ++ back.now) ≡ false)
        items.now result }
{
    items.partition_point(|item| goes_before(item.name(), front, back))
}

/// The place of the first file whose name is made of the two parts.
pub fn place_of_file(files: &[SiteFile], front: &[u8], back: &[u8]) -> Option<usize>
    requires { IsInOrder files.now }
    ensures { result ≡ place_of_file (front.now ++ back.now) files.now }
{
    let place = count_before(files, front, back);
    if place < files.len() && is_made_of(files[place].name(), front, back) {
        Some(place)
    } else {
        None
    }
}

/// Whether the name begins with the two parts.
pub fn begins_with(name: &[u8], front: &[u8], back: &[u8]) -> bool
    ensures { result ≡ starts_with nat_eq name.now (front.now ++ back.now) }
{
    name.starts_with(front) && name[front.len()..].starts_with(back)
}

/// Whether some file lies under the name.
pub fn has_files_under(files: &[SiteFile], name: &[u8]) -> bool
    requires { IsInOrder files.now }
    ensures { result ≡ has_files_under name.now files.now }
{
    let place = count_before(files, name, b"/");
    place < files.len() && begins_with(files[place].name(), name, b"/")
}
