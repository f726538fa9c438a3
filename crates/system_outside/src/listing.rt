//! The names of the files below a folder.
ghost use Rattle.std.specs.Prelude.{◌≡◌, ◌≤◌, ◌∷◌, ◌++◌, All, IfOk, IfErr, OnOk, MatchResult, Ok, Err, length, true, None, option_map};
ghost use Rattle.std.specs.Option.{option_to_list};
ghost use Rattle.std.specs.String.{string_bytes};
ghost use Rattle.std.specs.IoError.{error_kind};
ghost use Rattle.mpm_base.specs.Store.{MayList, lies_under};
ghost use Rattle.mpm_base.specs.declared.store.StoreFault.TheVariants as fault;
ghost use Rattle.system_outside.specs.declared.entry.EntryKind.TheVariants as entry;
ghost use Rattle.system_outside.specs.Listing.{listing_fault, missing_folder};
ghost use Rattle.system_outside.specs.ListingInside.{IsListing, IsListFault, KeepsListings, MayRefuse, first_listing, with_entry};

use crate::entry::{EntryKind, entry_given, kind_in};
use crate::fault::fault_of;
use crate::operator::Operator;
use mpm_base::{Names, Octets, StoreFault};
use std::alloc::Global;
use std::fs::DirEntry;
use std::marker::Model;
use std::rt::Files;
use std::{fs, io};

/// A listing as far as it came: the names of the files that were found, and the folders that are still to be gone through.
#[derive(Drop)]
pub struct Listing {
    names: Names,
    folders: Vec<String>,
}

impl Model for Listing {
    ghost use Rattle.std.specs.Prelude.{map};
    ghost use Rattle.std.specs.String.{string_bytes};
    ghost use Rattle.system_outside.specs.ListingInside.{SeenListing};

    ghost Value = { SeenListing };

    ghost view = { λ l. record { names = l.names; folders = map string_bytes l.folders.items } };
}

impl Listing {
    /// The listing that begins at the folder.
    fn begin(alloc: Global, under: &str) -> Result<Listing, StoreFault>
        ensures ok { IfOk result (λ l. l ≡ first_listing under.now) }
        ensures fault { IfErr result (λ e. e ≡ fault.NoMemory) }
    {
        let Ok(folder) = String::from_str(alloc, under) else {
            return Err(StoreFault::NoMemory);
        };
        let mut folders = Vec::new(alloc);
        match folders.push(folder) {
            Ok(()) => Ok(Listing {
                names: Names::make(alloc),
                folders,
            }),
            Err(_) => Err(StoreFault::NoMemory),
        }
    }

    /// Takes a folder that is still to be gone through.
    fn next_folder(&mut self) -> Option<String>
        ensures names { self.new.names ≡ self.old.names }
        ensures folders { self.old.folders
            ≡ self.new.folders ++ option_to_list (option_map string_bytes result) }
    {
        self.folders.pop()
    }

    /// The names that were found.
    fn finish(self) -> Names
        ensures { result ≡ self.names }
    {
        self.names
    }

    /// Puts an entry at the end: a folder, or a file where there are fewer than so many. What is neither is left out.
    fn add(
        &mut self,
        alloc: Global,
        name: String,
        kind: EntryKind,
        most: u32,
    ) -> Result<(), StoreFault>
        ensures ok { OnOk result (self.new ≡ with_entry self.old (string_bytes name) kind) }
        ensures few { OnOk result (length self.old.names ≤ most → length self.new.names ≤ most) }
        ensures fault { IfErr result (MayRefuse self.old kind most) }
    {
        match kind {
            EntryKind::Folder => match self.folders.push(name) {
                Ok(()) => Ok(()),
                Err(_) => Err(StoreFault::NoMemory),
            },
            EntryKind::File => self.add_file(alloc, name, most),
            EntryKind::Other => Ok(()),
        }
    }

    /// Puts the name of a file at the end, where there are fewer than so many.
    fn add_file(&mut self, alloc: Global, name: String, most: u32) -> Result<(), StoreFault>
        ensures ok { OnOk result (self.new ≡ with_entry self.old (string_bytes name) entry.File) }
        ensures few { OnOk result (length self.new.names ≤ most) }
        ensures fault { IfErr result (MayRefuse self.old entry.File most) }
    {
        if self.names.len() as u64 >= most as u64 {
            return Err(StoreFault::Many);
        }
        let Ok(name) = Octets::of(alloc, name.as_bytes()) else {
            return Err(StoreFault::NoMemory);
        };
        match self.names.push(name) {
            Ok(()) => Ok(()),
            Err(_) => Err(StoreFault::NoMemory),
        }
    }
}

/// The whole name of what stands in the folder by that name.
fn name_in(alloc: Global, folder: &str, name: &str) -> Result<String, StoreFault>
    ensures whole { IfOk result (λ whole. string_bytes whole ≡ folder.now ++ 47 ∷ name.now) }
    ensures fault { IfErr result (λ e. e ≡ fault.NoMemory) }
{
    let Ok(mut whole) = String::from_str(alloc, folder) else {
        return Err(StoreFault::NoMemory);
    };
    if whole.push('/').is_err() || whole.push_str(name).is_err() {
        return Err(StoreFault::NoMemory);
    }
    Ok(whole)
}

/// The answer where a folder can't be opened: one that isn't there has no files.
pub fn fault_of_folder(error: &io::Error) -> Result<(), StoreFault>
    ensures { result ≡ missing_folder (error_kind error.now) }
{
    match fault_of(error) {
        StoreFault::Missing => Ok(()),
        fault => Err(fault),
    }
}

/// The fault where a folder can't be listed whole.
pub fn fault_of_entry(error: &io::Error) -> StoreFault
    ensures { result ≡ listing_fault (error_kind error.now) }
{
    match fault_of(error) {
        StoreFault::Missing => StoreFault::Failed,
        fault => fault,
    }
}

/// What the system told of the folder or entry of that name. The operator hears of an error, for which the folder can't be listed.
fn listed<T, R: Eprint>(
    operator: &Operator<'_, R>,
    name: &str,
    told: io::Result<T>,
) -> Result<T, StoreFault>
    ensures { MatchResult told
        (λ entry. result ≡ Ok entry)
        (λ e. result ≡ Err (listing_fault (error_kind e))) }
{
    match told {
        Ok(entry) => Ok(entry),
        Err(error) => {
            let fault = fault_of_entry(&error);
            operator.hear_of_fault("list", name, error);
            Err(fault)
        }
    }
}

/// The names of the files below the folder, at most so many. The operator hears of an error of the system. A folder that gains further
/// folders without end can't be listed.
pub fn list<R: Files + AllocGlobal + Eprint + Clone + Drop>(
    rt: &R,
    operator: &Operator<'_, R>,
    alloc: Global,
    under: &str,
    most: u32,
) -> Result<Names, StoreFault>
    ensures listed { MayList None most result }
    ensures below { IfOk result (All (λ name. lies_under under.now name ≡ true)) }
{
    let mut listing = Listing::begin(alloc, under)?;
    list_all(rt, operator, alloc, under, most, &mut listing)?;
    Ok(listing.finish())
}

/// Goes through one folder of the listing after the other, until none is left.
fn list_all<R: Files + AllocGlobal + Eprint + Clone + Drop>(
    rt: &R,
    operator: &Operator<'_, R>,
    alloc: Global,
    under: &str,
    most: u32,
    listing: &mut Listing,
) -> Result<(), StoreFault>
    requires { IsListing under.now most listing.old }
    ensures ok { OnOk result (IsListing under.now most listing.new) }
    ensures fault { IfErr result IsListFault }
{
    for _ in 0..u64::MAX {
        if !list_next(rt, operator, alloc, under, most, listing)? {
            return Ok(());
        }
    }
    Err(StoreFault::Failed)
}

/// Goes through the next folder of the listing, and answers whether there was one.
fn list_next<R: Files + AllocGlobal + Eprint + Clone + Drop>(
    rt: &R,
    operator: &Operator<'_, R>,
    alloc: Global,
    under: &str,
    most: u32,
    listing: &mut Listing,
) -> Result<bool, StoreFault>
    requires { IsListing under.now most listing.old }
    ensures ok { OnOk result (IsListing under.now most listing.new) }
    ensures fault { IfErr result IsListFault }
{
    let Some(folder) = listing.next_folder() else {
        return Ok(false);
    };
    list_one(rt, operator, alloc, folder.as_str(), most, listing)?;
    Ok(true)
}

/// Adds what stands right in the folder.
fn list_one<R: Files + AllocGlobal + Eprint + Clone + Drop>(
    rt: &R,
    operator: &Operator<'_, R>,
    alloc: Global,
    folder: &str,
    most: u32,
    listing: &mut Listing,
) -> Result<(), StoreFault>
    ensures ok { OnOk result (KeepsListings folder.now most listing.old listing.new) }
    ensures fault { IfErr result IsListFault }
{
    let entries = match fs::read_dir(rt, folder) {
        Ok(entries) => entries,
        Err(error) => {
            let answer = fault_of_folder(&error);
            operator.hear_of_fault("list", folder, error);
            return answer;
        }
    };
    for entry in entries {
        list_entry(rt, operator, alloc, folder, entry, most, listing)?;
    }
    Ok(())
}

/// Adds the entry of the folder of which the system told this. One whose name isn't UTF-8 is left out.
fn list_entry<R: Files + AllocGlobal + Eprint + Clone + Drop>(
    rt: &R,
    operator: &Operator<'_, R>,
    alloc: Global,
    folder: &str,
    told: io::Result<DirEntry<R>>,
    most: u32,
    listing: &mut Listing,
) -> Result<(), StoreFault>
    ensures ok { OnOk result (KeepsListings folder.now most listing.old listing.new) }
    ensures fault { IfErr result IsListFault }
{
    match listed(operator, folder, entry_given(told))? {
        Some(entry) => add_entry(rt, operator, alloc, folder, &entry, most, listing),
        None => Ok(()),
    }
}

/// Adds the entry of the folder, by what it leads to.
fn add_entry<R: Files + AllocGlobal + Eprint + Clone + Drop>(
    rt: &R,
    operator: &Operator<'_, R>,
    alloc: Global,
    folder: &str,
    entry: &DirEntry<R>,
    most: u32,
    listing: &mut Listing,
) -> Result<(), StoreFault>
    ensures ok { OnOk result (KeepsListings folder.now most listing.old listing.new) }
    ensures fault { IfErr result IsListFault }
{
    let kind = listed(operator, entry.path().as_str(), kind_in(rt, entry))?;
    let name = name_in(alloc, folder, entry.file_name())?;
    listing.add(alloc, name, kind, most)?;
    Ok(())
}
