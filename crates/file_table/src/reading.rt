//! Reads the files under one root of a store.
ghost use Rattle.std.specs.Prelude.{ℕ, ◌≡◌, ◌+◌, ◌<◌, ◌≤◌, [], filter, map, length, All, IsUtf8, IfOk, IfSome, MatchResult, Some, slice_get, false, true, unwrap_or};
ghost use Rattle.std.specs.Cmp.Lexicographic.{slice_cmp};
ghost use Rattle.std.specs.List.Sorted.{IsPermutation, IsSortedByKey};
ghost use Rattle.std.specs.Ordering.{nat_cmp};
ghost use Rattle.mpm_base.specs.Store.{content_of, lies_under, names_under};
ghost use Rattle.file_table.specs.Load.{LeavesStore};
ghost use Rattle.file_table.specs.LoadInside.{AreCounted, IsReadBehind, MayListFiles, MayNotRead, MayNotReadRoot, MayReadContent, MayReadNext};
ghost use Rattle.file_table.specs.Site.{AreUnder, file_within, is_too_large, most_bytes_together, most_files, name_within, no_content};

use crate::load_fault::LoadFault;
use crate::past::Past;
use crate::search::begins_with;
use crate::site_file::SiteFile;
use mpm_base::{Content, Names, NoMemory, Octets, Second, Store, StoreFault};
use std::alloc::Global;

/// The most files that a site has.
const MOST_FILES: u32 = 65_536;

/// The most bytes that a file has.
const MOST_BYTES: u64 = 16_777_216;

/// The most bytes that the files of a site have together.
const MOST_BYTES_TOGETHER: u64 = 67_108_864;

/// The bytes as a text.
fn text_of(bytes: &[u8]) -> &str
    requires { IsUtf8 bytes.now }
    ensures { result.now ≡ bytes.now }
{
    match std::str::from_utf8(bytes) {
        Ok(text) => text,
        Err(_) => unreachable!(),
    }
}

/// The names of the files under the root, where so many files were read before.
fn list_names<D: Store>(
    alloc: Global,
    store: &mut D,
    root: &[u8],
    count: usize,
) -> Result<Names, LoadFault>
    requires text { IsUtf8 root.now }
    requires few { count ≤ most_files }
    ensures store { LeavesStore (D.seen store.old) (D.seen store.new) result }
    ensures names { IfOk result
        (λ names. (count + length names ≤ most_files) × All IsUtf8 names) }
    ensures known { IfSome (D.seen store.old).told
        (λ t. MayListFiles root.now count (names_under root.now t.files) result) }
{
    match store.names(alloc, text_of(root), MOST_FILES - count as u32) {
        Ok(names) => Ok(names),
        Err(StoreFault::Many) => {
            let root = Octets::of(alloc, root)?;
            Err(LoadFault::TooMany(root))
        }
        Err(StoreFault::Failed) => Err(LoadFault::StoreFault),
        Err(StoreFault::NoMemory) => Err(LoadFault::NoMemory),
        Err(StoreFault::Missing) => unreachable!(),
        Err(StoreFault::Large(_)) => unreachable!(),
    }
}

/// The name at the place.
fn name_at(names: &Names, place: usize) -> &[u8]
    requires { place < length names.now }
    ensures { slice_get names.now place ≡ Some result.now }
{
    match names.get(place) {
        Some(name) => name.as_slice(),
        None => unreachable!(),
    }
}

/// Those of the names that lie under the root.
fn names_within<'a>(alloc: Global, names: &'a Names, root: &[u8]) -> Result<Vec<&'a [u8]>, NoMemory>
    ensures { IfOk result
        (λ within. map (λ name. name.now) within.items ≡ filter (lies_under root.now) names.now) }
{
    let mut within = Vec::new(alloc);
    for place in 0..names.len() {
        let name = name_at(names, place);
        if begins_with(name, root, b"/") {
            within.push(name)?;
        }
    }
    Ok(within)
}

/// Those of the names that lie under the root, in their order.
fn sorted_names<'a>(alloc: Global, names: &'a Names, root: &[u8]) -> Result<Vec<&'a [u8]>, NoMemory>
    ensures names { IfOk result (λ sorted. IsPermutation (filter (lies_under root.now) names.now)
        (map (λ name. name.now) sorted.items)) }
    ensures in_order { IfOk result
        (λ sorted. IsSortedByKey (λ name. name.now) (slice_cmp nat_cmp) sorted.items) }
{
    let mut sorted = names_within(alloc, names, root)?;
    sorted.sort()?;
    Ok(sorted)
}

/// What the file of that name has, of at most so many bytes. A file that isn't there has none.
fn read_content<D: Store>(
    alloc: Global,
    store: &mut D,
    name: &[u8],
    most: u64,
) -> Result<Content, LoadFault>
    requires { IsUtf8 name.now }
    ensures store { LeavesStore (D.seen store.old) (D.seen store.new) result }
    ensures fits { IfOk result (λ content. length content.bytes ≤ most) }
    ensures known { IfSome (D.seen store.old).told
        (λ t. MayReadContent (unwrap_or (content_of name.now t.files) no_content) name.now most
        result) }
{
    match store.read(alloc, text_of(name), most) {
        Ok(content) => Ok(content),
        Err(StoreFault::Missing) => Ok(Content {
            bytes: Octets::make(alloc),
            second: Second::of(0),
        }),
        Err(StoreFault::Large(size)) => {
            let name = Octets::of(alloc, name)?;
            Err(LoadFault::TooLarge(name, size))
        }
        Err(StoreFault::Failed) => Err(LoadFault::StoreFault),
        Err(StoreFault::NoMemory) => Err(LoadFault::NoMemory),
        Err(StoreFault::Many) => unreachable!(),
    }
}

/// The file of that name, where those before it have so many bytes.
fn read_next<D: Store>(
    alloc: Global,
    store: &mut D,
    root: &[u8],
    name: &[u8],
    before: u64,
    past: &mut Past<'_>,
) -> Result<SiteFile, LoadFault>
    requires utf8 { IsUtf8 name.now }
    requires under { lies_under root.now name.now ≡ true }
    requires bounded { before ≤ most_bytes_together }
    ensures store { LeavesStore (D.seen store.old) (D.seen store.new) result }
    ensures file { IfOk result (λ file. (file.name ≡ name_within root.now name.now)
        × (is_too_large before file ≡ false)) }
    ensures known { IfSome (D.seen store.old).told
        (λ t. MayReadNext (file_within root.now t.files name.now) name.now before result) }
{
    let most = MOST_BYTES.min(MOST_BYTES_TOGETHER - before);
    let Content { bytes, second } = read_content(alloc, store, name, most)?;
    let name = Octets::of(alloc, &name[root.len() + 1..])?;
    match past.file_of(alloc, name, bytes, second) {
        Ok(file) => Ok(file),
        Err(NoMemory) => Err(LoadFault::NoMemory),
    }
}

/// The files of these names, where those before them have so many bytes; and how many all have then.
fn read_files<D: Store>(
    alloc: Global,
    store: &mut D,
    root: &[u8],
    names: &[&[u8]],
    before: u64,
    past: &mut Past<'_>,
) -> Result<(Vec<SiteFile>, u64), LoadFault>
    requires utf8 { All (λ name. IsUtf8 name.now) names.now }
    requires under { All (λ name. lies_under root.now name.now ≡ true) names.now }
    requires bounded { before ≤ most_bytes_together }
    ensures store { LeavesStore (D.seen store.old) (D.seen store.new) result }
    ensures names { IfOk result (λ read. map (λ file. file.name) read.0.items
        ≡ map (name_within root.now) (map (λ name. name.now) names.now)) }
    ensures counted { IfOk result (λ read. AreCounted before read.0.items read.1) }
    ensures known { IfSome (D.seen store.old).told (λ t. MatchResult result
        (λ read. read.0.items
        ≡ map (file_within root.now t.files) (map (λ name. name.now) names.now))
        (MayNotRead root.now t.files (map (λ name. name.now) names.now) before)) }
{
    let mut files = Vec::new(alloc);
    let mut sum = before;
    for name in names {
        let file = match read_next(alloc, store, root, name, sum, past) {
            Ok(file) => file,
            Err(fault) => return Err(fault),
        };
        sum += file.bytes().len() as u64;
        if files.push(file).is_err() {
            return Err(LoadFault::NoMemory);
        }
    }
    Ok((files, sum))
}

/// The files of these names, which a listing of the root gave, in the order of their names, where those before them have so many
/// bytes.
fn read_listed<D: Store>(
    alloc: Global,
    store: &mut D,
    root: &[u8],
    names: &Names,
    before: u64,
    past: &mut Past<'_>,
) -> Result<(Vec<SiteFile>, u64), LoadFault>
    requires utf8 { All IsUtf8 names.now }
    requires bounded { before ≤ most_bytes_together }
    ensures store { LeavesStore (D.seen store.old) (D.seen store.new) result }
    ensures read { IfOk result (λ read. (count : ℕ) → count + length names.now ≤ most_files
        → IsReadBehind count before read.0.items read.1) }
    ensures known { IfSome (D.seen store.old).told (λ t. (count : ℕ)
        → count + length names.now ≤ most_files
        → names.now ≡ names_under root.now t.files
        → MatchResult result (λ read. AreUnder root.now t.files read.0.items)
        (MayNotReadRoot root.now t.files count before)) }
{
    let sorted = sorted_names(alloc, names, root)?;
    match read_files(alloc, store, root, sorted.as_slice(), before, past) {
        Ok(read) => Ok(read),
        Err(fault) => Err(fault),
    }
}

/// The files under the root, in the order of their names there, where so many files of so many bytes were read before; and how many
/// bytes all have then.
pub fn read_root<D: Store>(
    alloc: Global,
    store: &mut D,
    root: &[u8],
    count: usize,
    before: u64,
    past: &mut Past<'_>,
) -> Result<(Vec<SiteFile>, u64), LoadFault>
    requires text { IsUtf8 root.now }
    requires few { count ≤ most_files }
    requires bounded { before ≤ most_bytes_together }
    ensures store { LeavesStore (D.seen store.old) (D.seen store.new) result }
    ensures read { IfOk result (λ read. IsReadBehind count before read.0.items read.1) }
    ensures known { IfSome (D.seen store.old).told (λ t. MatchResult result
        (λ read. AreUnder root.now t.files read.0.items)
        (MayNotReadRoot root.now t.files count before)) }
{
    let names = match list_names(alloc, store, root, count) {
        Ok(names) => names,
        Err(fault) => return Err(fault),
    };
    read_listed(alloc, store, root, &names, before, past)
}
