//! Sites by example: how they are loaded.
ghost use Rattle.std.specs.Prelude.{◌≡◌, [], None};

use failing_stand_ins::MemStore;
use file_table::{LoadFault, Site, SiteOrder, load};
use mpm_base::{Content, Names, NoMemory, Octets, Second, Store, StoreFault};
use stand_ins::{Calls, Files};
use std::alloc::Global;
use test_rows::{Sheet, number_of};

/// The site of the store.
fn load_htdocs<D: Store>(alloc: Global, store: &mut D) -> Result<Site, LoadFault> {
    match SiteOrder::one_host(alloc, "htdocs", "index.html", true) {
        Ok(order) => load(alloc, store, &order),
        Err(NoMemory) => Err(LoadFault::NoMemory),
    }
}

/// The site of these files of a store, whose listed calls fail.
pub fn site_of(alloc: Global, files: Files, fails: Calls) -> Result<Site, LoadFault> {
    let mut store = MemStore::make(alloc, files, fails);
    load_htdocs(alloc, &mut store)
}

/// A file for each line, which is its name and its bytes.
pub fn named(alloc: Global, names: &str) -> Result<Files, NoMemory> {
    let mut files = Files::make(alloc);
    match add_named(&mut files, names) {
        Ok(()) => Ok(files),
        Err(NoMemory) => Err(NoMemory),
    }
}

/// Puts a file there for each line, which is its name and its bytes.
fn add_named(files: &mut Files, names: &str) -> Result<(), NoMemory> {
    for name in names.lines() {
        files.set(name, name.as_bytes())?;
    }
    Ok(())
}

/// The call of the number that the text writes, which fails.
pub fn failing(alloc: Global, number: &str) -> Result<Calls, NoMemory> {
    let mut fails = Calls::make(alloc);
    fails.add(number_of(number))?;
    Ok(fails)
}

/// Shows how many files the site has, or why there is none.
pub fn show_load(sheet: &mut Sheet, answer: &Result<Site, LoadFault>) {
    match answer {
        Ok(site) => println!(sheet; "{} files", site.files().len()),
        Err(LoadFault::TooLarge(name, size)) => {
            show_too_large(sheet, name, *size);
            sheet.print("\n");
        }
        Err(LoadFault::TooMany(root)) => {
            show_too_many(sheet, root);
            sheet.print("\n");
        }
        Err(fault) => println!(sheet; "{fault:?}"),
    }
}

/// Shows with the files of which root they are too many.
pub fn show_too_many(sheet: &mut Sheet, root: &Octets) {
    sheet.print("TooMany(");
    sheet.text(root.as_slice());
    sheet.print(")");
}

/// Shows which file is too large.
pub fn show_too_large(sheet: &mut Sheet, name: &Octets, size: u64) {
    sheet.print("TooLarge(");
    sheet.text(name.as_slice());
    print!(sheet; ", {size})");
}

/// Shows how these files of a store load, whose listed calls fail.
fn show_site(sheet: &mut Sheet, alloc: Global, files: Files, fails: Calls) {
    let answer = site_of(alloc, files, fails);
    show_load(sheet, &answer);
}

/// Shows how the files load where a call of the store fails.
pub fn show_calls(sheet: &mut Sheet, alloc: Global, rows: &str) -> Result<(), NoMemory> {
    let (names, calls) = rows.split_once("--\n").unwrap_or((rows, ""));
    for call in calls.lines() {
        print!(sheet; "{call} => ");
        show_call(sheet, alloc, names, call)?;
    }
    Ok(())
}

/// Shows how the files load where that call of the store fails.
fn show_call(sheet: &mut Sheet, alloc: Global, names: &str, call: &str) -> Result<(), NoMemory> {
    let fails = failing(alloc, call)?;
    let files = named(alloc, names)?;
    show_site(sheet, alloc, files, fails);
    Ok(())
}

/// Shows how files of these sizes load.
pub fn show_sizes(sheet: &mut Sheet, alloc: Global, rows: &str) -> Result<(), NoMemory> {
    for row in rows.lines() {
        print!(sheet; "{row} => ");
        let files = sized(alloc, row)?;
        show_site(sheet, alloc, files, Calls::make(alloc));
    }
    Ok(())
}

/// Files of these names and sizes, each of the byte `#` alone.
pub fn sized(alloc: Global, row: &str) -> Result<Files, NoMemory> {
    let mut files = Files::make(alloc);
    match add_sized(alloc, &mut files, row) {
        Ok(()) => Ok(files),
        Err(NoMemory) => Err(NoMemory),
    }
}

/// Puts files of these names and sizes there.
fn add_sized(alloc: Global, files: &mut Files, row: &str) -> Result<(), NoMemory> {
    for part in row.split('|') {
        add_large(alloc, files, part)?;
    }
    Ok(())
}

/// Puts a file of this name and size there.
fn add_large(alloc: Global, files: &mut Files, part: &str) -> Result<(), NoMemory> {
    let (name, size) = part.split_once(' ').unwrap_or((part, ""));
    let mut bytes = Vec::new(alloc);
    bytes.resize(number_of(size) as usize, b'#')?;
    files.set(name, bytes.as_slice())
}

/// An empty file, which was changed in the second 0.
pub fn empty(alloc: Global) -> Content
    ensures { result.bytes ≡ [] }
{
    Content {
        bytes: Octets::make(alloc),
        second: Second::of(0),
    }
}

/// A store of 65,537 files, which tells nothing and can't give their names. All are empty.
#[derive(Drop)]
pub struct CrowdedStore {
    /// How often it was renewed.
    pub renewals: u64,
    /// How often it was asked for fewer names than it has.
    pub refusals: u64,
}

impl CrowdedStore {
    /// One of which no call was made.
    pub fn make() -> CrowdedStore {
        CrowdedStore {
            renewals: 0,
            refusals: 0,
        }
    }
}

impl Store for CrowdedStore {
    ghost seen = { λ s. record { told = None; counts = record { faults = 0; refusals = s.refusals } } };

    fn renew(&mut self) {
        self.renewals = self.renewals.saturating_add(1);
    }

    fn names(&mut self, _: Global, _: &str, most: u32) -> Result<Names, StoreFault> {
        if most >= 65_537 {
            return Err(StoreFault::NoMemory);
        }
        self.refusals = self.refusals.saturating_add(1);
        Err(StoreFault::Many)
    }

    fn read(&mut self, alloc: Global, _: &str, _: u64) -> Result<Content, StoreFault> {
        Ok(empty(alloc))
    }
}

/// Shows that a store of too many files is refused, and how often it was asked.
pub fn show_crowd(sheet: &mut Sheet, alloc: Global) {
    let mut store = CrowdedStore::make();
    let answer = load_htdocs(alloc, &mut store);
    show_load(sheet, &answer);
    println!(sheet; "asked {}", store.refusals);
}
