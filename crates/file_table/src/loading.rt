//! Takes the files of a site from a store, root by root.
//! Why it is so stands in docs/DECISIONS.md: 117, One list of files for all hosts.
ghost use Rattle.std.specs.Prelude.{◌≡◌, ◌<◌, ◌≤◌, ◌^◌, map, length, position, All, IsUtf8, IfOk, IfErr, IfSome};
ghost use Rattle.std.specs.List.{list_any};
ghost use Rattle.std.specs.Str.{bytes_eq};
ghost use Rattle.file_table.specs.Load.{IsWithinLimits, LeavesStore, MayLoad, MayNotLoad};
ghost use Rattle.file_table.specs.LoadInside.{AddsRoot, HasReadRoots, MayNotReadRoot};
ghost use Rattle.file_table.specs.Site.{IsLoadable, host_of, most_bytes_together, most_files, part_of_root, roots_of};
ghost use Rattle.file_table.specs.SiteInside.{IsPartOf};

use crate::found_once::found_once;
use crate::load_fault::LoadFault;
use crate::part::Part;
use crate::past::Past;
use crate::reading::read_root;
use crate::site::{Host, Site};
use crate::site_file::SiteFile;
use crate::site_order::{HostOrders, SiteOrder};
use media_types::TypeTable;
use mpm_base::{Names, NoMemory, Octets, Store};
use name_hosts::{HostList, HostNames};
use std::alloc::Global;

/// Whether the root is one of these.
fn has_root(roots: &[&[u8]], root: &[u8]) -> bool
    ensures { result ≡ list_any (λ r. bytes_eq root.now r.now) roots.now }
{
    roots.iter().any(|other| root == *other)
}

/// The roots of the hosts, each once, in the order of the first host that has it.
fn roots_of(alloc: Global, hosts: &HostOrders) -> Result<Vec<&[u8]>, NoMemory>
    requires { All (λ host. IsUtf8 host.root) hosts.now }
    ensures roots { IfOk result
        (λ roots. map (λ root. root.now) roots.items ≡ roots_of hosts.now) }
    ensures texts { IfOk result (λ roots. All (λ root. IsUtf8 root.now) roots.items) }
{
    let mut roots = Vec::new(alloc);
    for host in hosts.as_slice() {
        let root = host.root.as_slice();
        if !has_root(roots.as_slice(), root) {
            roots.push(root)?;
        }
    }
    Ok(roots)
}

/// Reads the files under one more root, behind those that were read, which have so many bytes. Answers how many all have then.
fn add_root<D: Store>(
    alloc: Global,
    store: &mut D,
    root: &[u8],
    files: &mut Vec<SiteFile>,
    parts: &mut Vec<Part>,
    before: u64,
    past: &mut Past<'_>,
) -> Result<u64, LoadFault>
    requires text { IsUtf8 root.now }
    requires few { length files.old.items ≤ most_files }
    requires bounded { before ≤ most_bytes_together }
    ensures store { LeavesStore (D.seen store.old) (D.seen store.new) result }
    ensures added { IfOk result (AddsRoot (D.seen store.old).told root.now files.old.items
        files.new.items parts.old.items parts.new.items before) }
    ensures refused { IfSome (D.seen store.old).told (λ t.
        IfErr result (MayNotReadRoot root.now t.files (length files.old.items) before)) }
{
    past.turn_to(root);
    let (mut more, sum) = match read_root(alloc, store, root, files.len(), before, past) {
        Ok(read) => read,
        Err(fault) => return Err(fault),
    };
    let part = Part {
        first: files.len() as u32,
        count: more.len() as u32,
    };
    if files.append(&mut more).is_err() || parts.push(part).is_err() {
        return Err(LoadFault::NoMemory);
    }
    Ok(sum)
}

/// The files under these roots, root by root, and which of them lie under each.
fn read_roots<D: Store>(
    alloc: Global,
    store: &mut D,
    roots: &[&[u8]],
    past: &mut Past<'_>,
) -> Result<(Vec<SiteFile>, Vec<Part>), LoadFault>
    requires { All (λ root. IsUtf8 root.now) roots.now }
    ensures store { LeavesStore (D.seen store.old) (D.seen store.new) result }
    ensures read { IfOk result (λ read. HasReadRoots (D.seen store.old).told
        (map (λ root. root.now) roots.now) read.0.items read.1.items) }
    ensures refused { IfSome (D.seen store.old).told
        (λ t. IfErr result (MayNotLoad (map (λ root. root.now) roots.now) t.files)) }
{
    let mut files = Vec::new(alloc);
    let mut parts = Vec::new(alloc);
    let mut sum = 0;
    for root in roots {
        sum = match add_root(alloc, store, root, &mut files, &mut parts, sum, past) {
            Ok(sum) => sum,
            Err(fault) => return Err(fault),
        };
    }
    Ok((files, parts))
}

/// The place of the root among these.
fn place_of_root(roots: &[&[u8]], root: &[u8]) -> Option<usize>
    ensures { result ≡ position (λ r. bytes_eq root.now r.now) roots.now }
{
    roots.iter().position(|other| root == *other)
}

/// The part of the files that lies under the root; no files where it is none of the roots.
fn part_of_root(roots: &[&[u8]], parts: &[Part], root: &[u8]) -> Part
    ensures { result ≡ part_of_root (map (λ r. r.now) roots.now) parts.now root.now }
{
    match place_of_root(roots, root) {
        Some(place) if place < parts.len() => parts[place],
        _ => Part { first: 0, count: 0 },
    }
}

/// What each host has of a site with these roots and parts.
fn hosts_of(
    alloc: Global,
    orders: &HostOrders,
    roots: &[&[u8]],
    parts: &[Part],
) -> Result<Vec<Host>, NoMemory>
    ensures { IfOk result (λ hosts. hosts.items
        ≡ map (host_of (map (λ root. root.now) roots.now) parts.now) orders.now) }
{
    let mut hosts = Vec::new(alloc);
    for order in orders.as_slice() {
        let part = part_of_root(roots, parts, order.root.as_slice());
        let host = Host::of(alloc, order.index.as_slice(), part)?;
        hosts.push(host)?;
    }
    Ok(hosts)
}

/// A copy of the names.
fn copy_of(alloc: Global, names: &Names) -> Result<Names, NoMemory>
    ensures { IfOk result (λ copy. copy ≡ names.now) }
{
    let mut copy = Names::make(alloc);
    for name in names.as_slice() {
        copy.push(Octets::of(alloc, name.as_slice())?)?;
    }
    Ok(copy)
}

/// The names of each host.
fn names_of(alloc: Global, orders: &HostOrders) -> Result<HostList, NoMemory>
    ensures { IfOk result (λ names. names ≡ map (λ order. order.names) orders.now) }
{
    let mut names = HostList::make(alloc);
    for order in orders.as_slice() {
        let host = HostNames::of(alloc, copy_of(alloc, &order.names)?)?;
        names.push(host)?;
    }
    Ok(names)
}

/// The site of these files, of which each root has its part.
fn site_of(
    alloc: Global,
    order: &SiteOrder,
    roots: &[&[u8]],
    parts: &[Part],
    files: Vec<SiteFile>,
) -> Result<Site, NoMemory>
    requires some { 0 < length order.now.hosts }
    requires most { length order.now.hosts < 2 ^ 32 }
    requires parts { All (IsPartOf files.items) parts.now }
    requires few { length files.items ≤ most_files }
    ensures { IfOk result (λ site. site ≡ record {
      names = map (λ host. host.names) order.now.hosts;
      hosts = map (host_of (map (λ root. root.now) roots.now) parts.now) order.now.hosts;
      status = order.now.status;
      marks = order.now.marks;
      types = order.now.types;
      files = files.items;
    }) }
{
    let names = names_of(alloc, &order.hosts)?;
    let hosts = hosts_of(alloc, &order.hosts, roots, parts)?;
    let types = TypeTable::of(alloc, &order.types)?;
    let found = found_once(alloc, order.marks, &types, &files)?;
    Ok(Site::of(names, hosts, order.status, order.marks, types, files, found))
}

/// The site of the files under the roots of the hosts, where there is an old one or none.
fn load_by<D: Store>(
    alloc: Global,
    store: &mut D,
    order: &SiteOrder,
    old: Option<&Site>,
) -> Result<Site, LoadFault>
    requires { IsLoadable order.now }
    ensures store { LeavesStore (D.seen store.old) (D.seen store.new) result }
    ensures limits { IfOk result IsWithinLimits }
    ensures site { IfSome (D.seen store.old).told (λ t. MayLoad order.now t.files result) }
{
    let roots = match roots_of(alloc, &order.hosts) {
        Ok(roots) => roots,
        Err(NoMemory) => return Err(LoadFault::NoMemory),
    };
    let mut past = Past::of(old, &order.hosts, order.marks.tags);
    let (files, parts) = match read_roots(alloc, store, roots.as_slice(), &mut past) {
        Ok(read) => read,
        Err(fault) => return Err(fault),
    };
    match site_of(alloc, order, roots.as_slice(), parts.as_slice(), files) {
        Ok(site) => Ok(site),
        Err(NoMemory) => Err(LoadFault::NoMemory),
    }
}

/// The site of the files under the roots of the hosts, which are UTF-8. Each root is read once, in the order of the first host that
/// has it. A file that is listed and then missing counts as empty. StoreFault where a call of the store failed; TooMany for the first
/// root with whose files they are more than 65,536; TooLarge for the first file, in the order of roots and names, with more than
/// 16,777,216 bytes or with which they are more than 67,108,864; the first root with which something is so decides; NoMemory where
/// memory lacks.
pub fn load<D: Store>(alloc: Global, store: &mut D, order: &SiteOrder) -> Result<Site, LoadFault>
    requires { IsLoadable order.now }
    ensures store { LeavesStore (D.seen store.old) (D.seen store.new) result }
    ensures limits { IfOk result IsWithinLimits }
    ensures site { IfSome (D.seen store.old).told (λ t. MayLoad order.now t.files result) }
{
    load_by(alloc, store, order, None)
}

/// The same, where a server has an old site. A file that has the bytes of before takes them over, and their tag: no clause sees the difference.
pub fn load_again<D: Store>(
    alloc: Global,
    store: &mut D,
    order: &SiteOrder,
    old: &Site,
) -> Result<Site, LoadFault>
    requires { IsLoadable order.now }
    ensures store { LeavesStore (D.seen store.old) (D.seen store.new) result }
    ensures limits { IfOk result IsWithinLimits }
    ensures site { IfSome (D.seen store.old).told (λ t. MayLoad order.now t.files result) }
{
    load_by(alloc, store, order, Some(old))
}
