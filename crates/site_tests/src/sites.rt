//! Sites by example: what each file has of a site that a configuration makes, and of one that a restart makes.
ghost use Rattle.std.specs.Prelude.{◌<◌, length};

use crate::reloads::{CONF_NAME, add_config, parted};
use failing_stand_ins::MemStore;
use file_table::{Site, content_type, entity_tag, last_change};
use mpm_base::{NoMemory, Second};
use mpm_config::{Config, read_config};
use restart_control::{load_site, reload};
use stand_ins::{Calls, Files};
use std::alloc::Global;
use test_rows::{Marks, Sheet, number_of, text_of, words};

/// Puts a file there: its name, and perhaps the second in which it was changed and its bytes.
fn add_file(alloc: Global, files: &mut Files, row: &str) -> Result<(), NoMemory> {
    let (name, rest) = words(row);
    let (second, bytes) = words(rest);
    let bytes = text_of(alloc, bytes, Marks::Lines)?;
    files.set_at(name, bytes.as_slice(), Second::of(number_of(second)))
}

/// Puts a file there for each row.
fn add_files(alloc: Global, files: &mut Files, rows: &str) -> Result<(), NoMemory> {
    for row in rows.lines() {
        add_file(alloc, files, row)?;
    }
    Ok(())
}

/// A file for each row.
fn files_of(alloc: Global, rows: &str) -> Result<Files, NoMemory> {
    let mut files = Files::make(alloc);
    match add_files(alloc, &mut files, rows) {
        Ok(()) => Ok(files),
        Err(NoMemory) => Err(NoMemory),
    }
}

/// The files of the rows, and the configuration, where there is one.
fn edition_of(alloc: Global, rows: &str, config: Option<&str>) -> Result<Files, NoMemory> {
    let mut files = files_of(alloc, rows)?;
    match add_config(alloc, &mut files, config) {
        Ok(()) => Ok(files),
        Err(NoMemory) => Err(NoMemory),
    }
}

/// A store of the files of these rows. Its next edition has those of the other ones, and the configuration, where there is one.
fn store_of(
    alloc: Global,
    before: &str,
    then: &str,
    config: Option<&str>,
) -> Result<MemStore, NoMemory> {
    let mut store = MemStore::make(alloc, files_of(alloc, before)?, Calls::make(alloc));
    match add_edition(alloc, &mut store, then, config) {
        Ok(()) => Ok(store),
        Err(NoMemory) => Err(NoMemory),
    }
}

/// Gives the store a next edition.
fn add_edition(
    alloc: Global,
    store: &mut MemStore,
    rows: &str,
    config: Option<&str>,
) -> Result<(), NoMemory> {
    let files = edition_of(alloc, rows, config)?;
    store.later(files)
}

/// Shows what the files of each site have: of the one that the configuration makes, or of the one that a restart makes behind it.
pub fn show_sites(sheet: &mut Sheet, alloc: Global, rows: &str) -> Result<(), NoMemory> {
    let (before, rest) = rows.split_once("--\n").unwrap_or((rows, ""));
    let (then, configs) = rest.split_once("--\n").unwrap_or((rest, ""));
    for row in configs.lines() {
        println!(sheet; "{row}");
        show_server(sheet, alloc, before, then, row)?;
    }
    Ok(())
}

/// Shows what the files of the site have that the row asks for.
fn show_server(
    sheet: &mut Sheet,
    alloc: Global,
    before: &str,
    then: &str,
    row: &str,
) -> Result<(), NoMemory> {
    let (old, new) = parted(row);
    let config = text_of(alloc, old, Marks::Lines)?;
    let mut store = store_of(alloc, before, then, new)?;
    show_configured(sheet, alloc, &mut store, config.as_slice(), new.is_some());
    Ok(())
}

/// Shows what the files of the site have that the configuration makes, or a restart behind it.
fn show_configured(
    sheet: &mut Sheet,
    alloc: Global,
    store: &mut MemStore,
    config: &[u8],
    restarts: bool,
) {
    match read_config(alloc, config) {
        Ok((config, _)) => show_started(sheet, alloc, store, &config, restarts),
        Err(fault) => println!(sheet; "{fault:?}"),
    }
}

/// The same by a configuration that was read.
fn show_started(
    sheet: &mut Sheet,
    alloc: Global,
    store: &mut MemStore,
    config: &Config,
    restarts: bool,
) {
    match load_site(alloc, store, config) {
        Ok(site) => show_site(sheet, alloc, store, config, &site, restarts),
        Err(fault) => println!(sheet; "{fault:?}"),
    }
}

/// Shows what the files of the site have, or of the one that a restart makes behind it.
fn show_site(
    sheet: &mut Sheet,
    alloc: Global,
    store: &mut MemStore,
    config: &Config,
    site: &Site,
    restarts: bool,
) {
    if restarts {
        show_restarted(sheet, alloc, store, config, site);
    } else {
        show_files(sheet, site);
    }
}

/// Shows what the files of the site have that a restart makes behind this one.
fn show_restarted(
    sheet: &mut Sheet,
    alloc: Global,
    store: &mut MemStore,
    config: &Config,
    site: &Site,
) {
    match reload(alloc, store, CONF_NAME, config, site) {
        Ok(plan) => show_files(sheet, &plan.site),
        Err(fault) => println!(sheet; "{fault:?}"),
    }
}

/// Shows what each file of the site has.
fn show_files(sheet: &mut Sheet, site: &Site) {
    for (place, file) in site.files().iter().enumerate() {
        if place < site.files().len() {
            sheet.text(file.name());
            sheet.print(" =>");
            show_file(sheet, site, place as u32);
        }
    }
}

/// Shows the type of the file, its tag, where files have tags, and the second in which it was changed, where that counts.
fn show_file(sheet: &mut Sheet, site: &Site, place: u32)
    requires { place < length site.now.files }
{
    sheet.print(" ");
    sheet.text(content_type(site, place));
    if let Some(tag) = entity_tag(site, place) {
        sheet.print(" ");
        sheet.text(tag);
    }
    if site.marks().times {
        print!(sheet; " {}", last_change(site, place));
    }
    sheet.print("\n");
}
