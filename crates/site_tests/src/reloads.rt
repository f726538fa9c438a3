//! Restarts by example.
use crate::loads::{CrowdedStore, failing, named, show_too_large, show_too_many, site_of, sized};
use failing_stand_ins::MemStore;
use file_table::LoadFault;
use mpm_base::{NoMemory, Store};
use mpm_config::{Config, read_config, shape_of};
use restart_control::{Plan, ReloadFault, reload};
use stand_ins::{Calls, Files};
use std::alloc::Global;
use test_rows::{Marks, Sheet, text_of};

/// The name of the configuration.
pub const CONF_NAME: &str = "httpd.conf";

/// The configuration alone.
fn config_alone(alloc: Global, config: &[u8]) -> Result<Files, NoMemory> {
    let mut files = Files::make(alloc);
    files.set(CONF_NAME, config)?;
    Ok(files)
}

/// A store that has the configuration alone, whose next edition these files are, and whose listed calls fail.
fn store_before(
    alloc: Global,
    config: &[u8],
    files: Files,
    fails: Calls,
) -> Result<MemStore, NoMemory> {
    let first = config_alone(alloc, config)?;
    let mut store = MemStore::make(alloc, first, fails);
    match store.later(files) {
        Ok(()) => Ok(store),
        Err(NoMemory) => Err(NoMemory),
    }
}

/// Shows what a server makes of the store that runs by the configuration.
fn show_reload<D: Store>(sheet: &mut Sheet, alloc: Global, store: &mut D, config: &[u8]) {
    match read_config(alloc, config) {
        Ok((old, _)) => show_behind(sheet, alloc, store, &old),
        Err(fault) => println!(sheet; "{fault:?}"),
    }
}

/// Shows what a server without files makes of the store that runs by the configuration, which was read.
fn show_behind<D: Store>(sheet: &mut Sheet, alloc: Global, store: &mut D, old: &Config) {
    match site_of(alloc, Files::make(alloc), Calls::make(alloc)) {
        Ok(site) => {
            let answer = reload(alloc, store, CONF_NAME, old, &site);
            show_answer(sheet, &answer);
        }
        Err(fault) => println!(sheet; "{fault:?}"),
    }
}

/// Shows the plan, or why there is none.
fn show_answer(sheet: &mut Sheet, answer: &Result<Plan, ReloadFault>) {
    match answer {
        Ok(plan) => show_plan(sheet, plan),
        Err(ReloadFault::Load(LoadFault::TooLarge(name, size), _)) => {
            sheet.print("Load(");
            show_too_large(sheet, name, *size);
            sheet.print(")\n");
        }
        Err(ReloadFault::Load(LoadFault::TooMany(root), _)) => {
            sheet.print("Load(");
            show_too_many(sheet, root);
            sheet.print(")\n");
        }
        Err(fault) => println!(sheet; "{fault:?}: {fault}"),
    }
}

/// Shows what the table works by in the plan, where the plan would listen, and the files of its site.
fn show_plan(sheet: &mut Sheet, plan: &Plan) {
    let config = &plan.config;
    print!(sheet;
        "{:?}\n{:?} {:?}",
        shape_of(config),
        config.listen,
        config.control
    );
    for file in plan.site.files() {
        sheet.print(" ");
        sheet.text(file.name());
    }
    sheet.print("\n");
}

/// Shows what comes of configurations and those that follow them, beside these files.
pub fn show_restarts(sheet: &mut Sheet, alloc: Global, rows: &str) -> Result<(), NoMemory> {
    let (names, rows) = rows.split_once("--\n").unwrap_or((rows, ""));
    for row in rows.lines() {
        println!(sheet; "{row}");
        show_restart(sheet, alloc, names, row)?;
    }
    Ok(())
}

/// The configuration of the row, and the one that follows it, where one does.
pub fn parted(row: &str) -> (&str, Option<&str>) {
    match row.split_once(" => ") {
        Some((old, new)) => (old, Some(new)),
        None => (row, None),
    }
}

/// Shows what comes of the configuration of the row, and the one that follows it, where one does.
fn show_restart(sheet: &mut Sheet, alloc: Global, names: &str, row: &str) -> Result<(), NoMemory> {
    let (old, new) = parted(row);
    let old = text_of(alloc, old, Marks::Lines)?;
    let files = edition_of(alloc, names, new)?;
    show_edition(sheet, alloc, old.as_slice(), files)
}

/// The files of these names, and the configuration, where there is one.
fn edition_of(alloc: Global, names: &str, config: Option<&str>) -> Result<Files, NoMemory> {
    let mut files = named(alloc, names)?;
    match add_config(alloc, &mut files, config) {
        Ok(()) => Ok(files),
        Err(NoMemory) => Err(NoMemory),
    }
}

/// Puts the configuration there, where there is one.
pub fn add_config(alloc: Global, files: &mut Files, config: Option<&str>) -> Result<(), NoMemory> {
    let Some(config) = config else {
        return Ok(());
    };
    let text = text_of(alloc, config, Marks::Lines)?;
    files.set(CONF_NAME, text.as_slice())
}

/// Shows what a server that runs by the configuration makes of the files of the next edition.
fn show_edition(
    sheet: &mut Sheet,
    alloc: Global,
    config: &[u8],
    files: Files,
) -> Result<(), NoMemory> {
    let mut store = store_before(alloc, config, files, Calls::make(alloc))?;
    show_reload(sheet, alloc, &mut store, config);
    Ok(())
}

/// Shows what comes of a restart where the next edition has files of these sizes.
pub fn show_sizes(sheet: &mut Sheet, alloc: Global, rows: &str) -> Result<(), NoMemory> {
    for row in rows.lines() {
        println!(sheet; "{row}");
        let files = sized(alloc, row)?;
        show_edition(sheet, alloc, b"", files)?;
    }
    Ok(())
}

/// Shows what comes of a restart where a call of the store fails, and of a further one.
pub fn show_calls(sheet: &mut Sheet, alloc: Global, rows: &str) -> Result<(), NoMemory> {
    let (names, calls) = rows.split_once("--\n").unwrap_or((rows, ""));
    for call in calls.lines() {
        println!(sheet; "{call}");
        let files = edition_of(alloc, names, Some("Timeout 7|"))?;
        show_call(sheet, alloc, files, call)?;
    }
    Ok(())
}

/// Shows what comes of a restart by these files where that call of the store fails, and of a further one.
fn show_call(sheet: &mut Sheet, alloc: Global, files: Files, call: &str) -> Result<(), NoMemory> {
    let fails = failing(alloc, call)?;
    let mut store = store_before(alloc, b"", files, fails)?;
    show_reload(sheet, alloc, &mut store, b"");
    show_reload(sheet, alloc, &mut store, b"");
    Ok(())
}

/// Shows that a restart is refused where the store has too many files, and how often it was renewed and asked for their names.
pub fn show_crowd(sheet: &mut Sheet, alloc: Global) {
    let mut store = CrowdedStore::make();
    show_reload(sheet, alloc, &mut store, b"");
    println!(sheet; "renewed {}, asked {}", store.renewals, store.refusals);
}
