//! The configuration that a script writes.
use mpm_base::{NoMemory, Store};
use mpm_script::read_script;
use script_front::script_store;
use stand_ins::PlainStore;
use std::alloc::Global;
use test_rows::{Marks, Sheet, text_of};

/// Shows the configuration of each script, at first and once its store was renewed twice.
pub fn show_scripts(sheet: &mut Sheet, alloc: Global, rows: &str) -> Result<(), NoMemory> {
    for row in rows.lines() {
        print!(sheet; "{row} =>");
        show_script(sheet, alloc, row)?;
        sheet.print("\n");
    }
    Ok(())
}

/// Shows the configuration of the script, at first and once its store was renewed twice.
fn show_script(sheet: &mut Sheet, alloc: Global, row: &str) -> Result<(), NoMemory> {
    let text = text_of(alloc, row, Marks::Lines)?;
    show_edition(sheet, alloc, text.as_slice(), 0)?;
    show_edition(sheet, alloc, text.as_slice(), 2)
}

/// Shows what the store of the script has in `httpd.conf` once it was renewed so often.
fn show_edition(
    sheet: &mut Sheet,
    alloc: Global,
    text: &[u8],
    renewals: u32,
) -> Result<(), NoMemory> {
    match read_script(alloc, text) {
        Ok(script) => {
            let mut store = script_store(alloc, &script)?;
            show_renewed(sheet, alloc, &mut store, renewals);
        }
        Err(fault) => print!(sheet; " {fault:?}"),
    }
    Ok(())
}

/// Shows what the store has in `httpd.conf` once it was renewed so often.
fn show_renewed(sheet: &mut Sheet, alloc: Global, store: &mut PlainStore, renewals: u32) {
    for _ in 0..renewals {
        store.renew();
    }
    match store.read_bytes(alloc, "httpd.conf", 1_048_576) {
        Ok(bytes) => sheet.bytes("", bytes.as_slice()),
        Err(fault) => print!(sheet; " {fault:?}"),
    }
}
