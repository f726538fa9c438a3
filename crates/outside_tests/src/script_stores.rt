//! The files of scripts' stores, edition by edition.
use mpm_base::{Content, Names, NoMemory, Octets, Second, Store, StoreFault};
use mpm_script::{ScriptFault, read_script};
use script_front::{CONF_NAME, script_store};
use stand_ins::PlainStore;
use std::alloc::Global;
use test_rows::{Marks, Sheet, text_of};

/// Shows what the store of each script has at first, and behind each of three renewals.
pub fn show_stores(sheet: &mut Sheet, alloc: Global, rows: &str) -> Result<(), NoMemory> {
    for row in rows.lines() {
        print!(sheet; "{row} =>");
        show_store(sheet, alloc, row)?;
    }
    Ok(())
}

/// Shows the same of the store of one script, or why it is refused.
fn show_store(sheet: &mut Sheet, alloc: Global, row: &str) -> Result<(), NoMemory> {
    let text = text_of(alloc, row, Marks::Controls)?;
    match store_of(alloc, text.as_slice()) {
        Ok(mut store) => show_editions(sheet, alloc, &mut store),
        Err(fault) => {
            println!(sheet; " {fault:?}");
            Ok(())
        }
    }
}

/// The store of the script. It has no clause, so that what its files are isn't carried through what is shown.
fn store_of(alloc: Global, bytes: &[u8]) -> Result<PlainStore, ScriptFault> {
    let script = read_script(alloc, bytes)?;
    Ok(script_store(alloc, &script)?)
}

/// Shows what the store has, and then behind each renewal.
fn show_editions(sheet: &mut Sheet, alloc: Global, store: &mut PlainStore) -> Result<(), NoMemory> {
    show_files(sheet, alloc, store)?;
    for _ in 0..3 {
        renew(store);
        show_files(sheet, alloc, store)?;
    }
    sheet.print("\n");
    Ok(())
}

fn renew(store: &mut PlainStore) {
    store.renew();
}

/// Shows the configuration, and each file below `htdocs`.
fn show_files(sheet: &mut Sheet, alloc: Global, store: &mut PlainStore) -> Result<(), NoMemory> {
    show_file(sheet, alloc, store, CONF_NAME);
    match names_of(alloc, store) {
        Ok(names) => show_names(sheet, alloc, store, names.as_slice())?,
        Err(fault) => print!(sheet; " {fault:?}"),
    }
    sheet.print(";");
    Ok(())
}

/// The names of at most nine files below `htdocs`. It has no clause, for the same reason as above.
fn names_of(alloc: Global, store: &mut PlainStore) -> Result<Names, StoreFault> {
    store.names(alloc, "htdocs", 9)
}

fn show_names(
    sheet: &mut Sheet,
    alloc: Global,
    store: &mut PlainStore,
    names: &[Octets],
) -> Result<(), NoMemory> {
    for name in names {
        let Ok(text) = String::from_utf8_lossy(alloc, name.as_slice()) else {
            return Err(NoMemory);
        };
        show_file(sheet, alloc, store, text.as_str());
    }
    Ok(())
}

fn show_file(sheet: &mut Sheet, alloc: Global, store: &mut PlainStore, name: &str) {
    print!(sheet; " {name}");
    match file_of(alloc, store, name) {
        Ok(content) => {
            sheet.bytes("", content.bytes.as_slice());
            show_second(sheet, &content.second);
        }
        Err(fault) => print!(sheet; " {fault:?}"),
    }
}

/// Shows in which second a file was changed, where that isn't the first.
fn show_second(sheet: &mut Sheet, second: &Second) {
    match second.number() {
        0 => (),
        number => print!(sheet; " at {number}"),
    }
}

/// The file of that name. It has no clause, for the same reason as above.
fn file_of(alloc: Global, store: &mut PlainStore, name: &str) -> Result<Content, StoreFault> {
    store.read(alloc, name, 99)
}
