//! Hosts by example: which of them a name chooses, and what paths name for each.
ghost use Rattle.std.specs.Prelude.{IfOk, IsUtf8, None};
ghost use Rattle.file_table.specs.Site.{IsLoadable};

use crate::loads::{empty, named, show_load, sized};
use crate::paths::show_found_for;
use failing_stand_ins::MemStore;
use file_table::{HostOrder, HostOrders, LoadFault, Marks, Site, SiteOrder, load};
use media_types::MediaTypes;
use mpm_base::{Content, Names, NoMemory, Octets, Store, StoreFault};
use name_hosts::{HostList, HostNames, choose, host_part};
use stand_ins::{Calls, Files};
use std::alloc::Global;
use test_rows::{Sheet, small_of};

/// The names in a row, each behind a space; none where it is `-`.
fn names_in(alloc: Global, row: &str) -> Result<Names, NoMemory> {
    let mut names = Names::make(alloc);
    for name in row.split(' ') {
        if name != "-" {
            names.push(Octets::of(alloc, name.as_bytes())?)?;
        }
    }
    Ok(names)
}

/// Hosts with these names, one in a row.
fn hosts_in(alloc: Global, rows: &str) -> Result<HostList, NoMemory> {
    let mut hosts = HostList::make(alloc);
    for row in rows.lines() {
        let names = names_in(alloc, row)?;
        hosts.push(HostNames::of(alloc, names)?)?;
    }
    Ok(hosts)
}

/// Shows of each value what it is without its port, and which host it chooses.
pub fn show_choices(sheet: &mut Sheet, alloc: Global, rows: &str) -> Result<(), NoMemory> {
    let (hosts, values) = rows.split_once("--\n").unwrap_or((rows, ""));
    let hosts = hosts_in(alloc, hosts)?;
    for value in values.lines() {
        print!(sheet; "{value} => ");
        show_choice(sheet, &hosts, value.as_bytes());
    }
    Ok(())
}

/// Shows what the value is without its port, and which host it chooses.
fn show_choice(sheet: &mut Sheet, hosts: &HostList, value: &[u8]) {
    sheet.text(host_part(value));
    if hosts.is_empty() || hosts.len() > 65_536 {
        sheet.print("\n");
    } else {
        println!(sheet; " {}", choose(hosts, value));
    }
}

/// A host without a name that has the root and the index in the row.
fn order_in(alloc: Global, row: &str) -> Result<HostOrder, NoMemory>
    ensures { IfOk result (λ order. IsUtf8 order.root) }
{
    let (root, index) = row.split_once(' ').unwrap_or((row, ""));
    Ok(HostOrder {
        names: Names::make(alloc),
        root: Octets::of(alloc, root.as_bytes())?,
        index: Octets::of(alloc, index.as_bytes())?,
    })
}

/// A site of three hosts, which have the roots and indexes of these rows.
fn three_hosts(alloc: Global, first: &str, second: &str, third: &str) -> Result<SiteOrder, NoMemory>
    ensures { IfOk result IsLoadable }
{
    let mut hosts = HostOrders::make(alloc);
    hosts.push(order_in(alloc, first)?)?;
    hosts.push(order_in(alloc, second)?)?;
    hosts.push(order_in(alloc, third)?)?;
    Ok(SiteOrder {
        hosts,
        status: true,
        marks: Marks {
            tags: false,
            times: false,
        },
        types: MediaTypes::usual(alloc),
    })
}

/// The site of the files, for three hosts, whose roots and indexes stand in the row.
fn site_in(alloc: Global, row: &str, files: Files) -> Result<Site, LoadFault> {
    let (first, rest) = row.split_once('|').unwrap_or((row, ""));
    let (second, third) = rest.split_once('|').unwrap_or((rest, ""));
    let order = three_hosts(alloc, first, second, third)?;
    let mut store = MemStore::make(alloc, files, Calls::make(alloc));
    load(alloc, &mut store, &order)
}

/// Shows what paths name for three hosts, whose roots and indexes stand in the first row.
pub fn show_host_paths(sheet: &mut Sheet, alloc: Global, rows: &str) -> Result<(), NoMemory> {
    let (row, rest) = rows.split_once('\n').unwrap_or((rows, ""));
    let (names, paths) = rest.split_once("--\n").unwrap_or((rest, ""));
    let files = named(alloc, names)?;
    let answer = site_in(alloc, row, files);
    show_load(sheet, &answer);
    match &answer {
        Ok(site) => show_all_found(sheet, alloc, site, paths),
        Err(_) => Ok(()),
    }
}

/// Shows what each path names for the host whose number stands before it.
fn show_all_found(
    sheet: &mut Sheet,
    alloc: Global,
    site: &Site,
    paths: &str,
) -> Result<(), NoMemory> {
    for row in paths.lines() {
        let (host, path) = row.split_once(' ').unwrap_or((row, ""));
        print!(sheet; "{row} => ");
        show_found_for(sheet, alloc, site, small_of(host), path)?;
    }
    Ok(())
}

/// Shows how files of these sizes load for three hosts, whose roots and indexes stand before them.
pub fn show_host_sizes(sheet: &mut Sheet, alloc: Global, rows: &str) -> Result<(), NoMemory> {
    for row in rows.lines() {
        print!(sheet; "{row} => ");
        show_host_size(sheet, alloc, row)?;
    }
    Ok(())
}

/// Shows how the files of the row load for its hosts.
fn show_host_size(sheet: &mut Sheet, alloc: Global, row: &str) -> Result<(), NoMemory> {
    let (hosts, files) = row.split_once(" : ").unwrap_or((row, ""));
    let files = sized(alloc, files)?;
    let answer = site_in(alloc, hosts, files);
    show_load(sheet, &answer);
    Ok(())
}

/// A store of 65,537 files below the folder `b`, whose names it can't give, and none elsewhere. It tells nothing.
#[derive(Drop)]
struct CrowdedFolder {
    refusals: u64,
}

impl Store for CrowdedFolder {
    ghost seen = { λ s. record { told = None; counts = record { faults = 0; refusals = s.refusals } } };

    fn renew(&mut self) {}

    fn names(&mut self, alloc: Global, under: &str, most: u32) -> Result<Names, StoreFault> {
        if under != "b" {
            return Ok(Names::make(alloc));
        }
        if most >= 65_537 {
            return Err(StoreFault::NoMemory);
        }
        self.refusals = self.refusals.saturating_add(1);
        Err(StoreFault::Many)
    }

    fn read(&mut self, alloc: Global, _: &str, _: u64) -> Result<Content, StoreFault> {
        Ok(empty(alloc))
    }
}

/// Shows that a site is refused where a host that isn't the first has too many files.
pub fn show_host_crowd(sheet: &mut Sheet, alloc: Global) -> Result<(), NoMemory> {
    let order = three_hosts(alloc, "a index.html", "b index.html", "c index.html")?;
    let mut store = CrowdedFolder { refusals: 0 };
    let answer = load(alloc, &mut store, &order);
    show_load(sheet, &answer);
    Ok(())
}
