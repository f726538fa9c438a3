//! Sites by example: what paths name.
use crate::loads::{named, site_of};
use file_table::{Found, Site, bytes, find, hosts};
use mpm_base::NoMemory;
use stand_ins::Calls;
use std::alloc::Global;
use test_rows::Sheet;

/// Shows what each path names in the site of these files.
pub fn show_paths(sheet: &mut Sheet, alloc: Global, rows: &str) -> Result<(), NoMemory> {
    let (names, paths) = rows.split_once("--\n").unwrap_or((rows, ""));
    let files = named(alloc, names)?;
    match site_of(alloc, files, Calls::make(alloc)) {
        Ok(site) => show_all_found(sheet, alloc, &site, paths),
        Err(fault) => {
            println!(sheet; "{fault:?}");
            Ok(())
        }
    }
}

/// Shows what each path names in the site.
fn show_all_found(
    sheet: &mut Sheet,
    alloc: Global,
    site: &Site,
    paths: &str,
) -> Result<(), NoMemory> {
    for path in paths.lines() {
        print!(sheet; "{path} => ");
        show_found(sheet, alloc, site, path)?;
    }
    Ok(())
}

/// Shows what the path names in the site.
fn show_found(sheet: &mut Sheet, alloc: Global, site: &Site, path: &str) -> Result<(), NoMemory> {
    show_found_for(sheet, alloc, site, 0, path)
}

/// Shows what the path names in the site for the host at the place, where there is one.
pub fn show_found_for(
    sheet: &mut Sheet,
    alloc: Global,
    site: &Site,
    host: u32,
    path: &str,
) -> Result<(), NoMemory> {
    if host as usize >= hosts(site).len() {
        sheet.print("no host\n");
        return Ok(());
    }
    let found = find(alloc, site, host, path.as_bytes())?;
    let (word, bytes) = text_of(site, &found);
    sheet.print(word);
    sheet.text(bytes);
    sheet.print("\n");
    Ok(())
}

/// What was found, and the file's bytes or the path to ask for.
fn text_of<'a>(site: &'a Site, found: &'a Found) -> (&'static str, &'a [u8]) {
    match found {
        Found::File(place) if (*place as usize) < site.files().len() => ("", bytes(site, *place)),
        Found::File(_) => ("no file", b""),
        Found::Redirect(path) => ("moved to ", path.as_slice()),
        Found::Missing => ("Missing", b""),
        Found::BadPath => ("BadPath", b""),
    }
}
