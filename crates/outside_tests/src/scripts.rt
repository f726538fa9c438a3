//! Scripts as they are read, and those of loads.
ghost use Rattle.std.specs.Prelude.{◌≤◌};

use mpm_base::{ClientAct, NoMemory, ScriptLine, SiteLine};
use mpm_script::{Script, ScriptFault, load_script, read_script};
use std::alloc::Global;
use test_rows::{Marks, Sheet, small_of, text_of};

/// Shows the lines of each script, or why it is refused.
pub fn show_scripts(sheet: &mut Sheet, alloc: Global, rows: &str) -> Result<(), NoMemory> {
    for row in rows.lines() {
        print!(sheet; "{row} =>");
        show_script(sheet, alloc, row)?;
    }
    Ok(())
}

/// Shows the lines of the script, or why it is refused.
fn show_script(sheet: &mut Sheet, alloc: Global, row: &str) -> Result<(), NoMemory> {
    let text = text_of(alloc, row, Marks::Controls)?;
    match read(alloc, text.as_slice()) {
        Ok(script) => show_lines(sheet, script.lines()),
        Err(fault) => println!(sheet; " {fault:?}"),
    }
    Ok(())
}

/// The script of the bytes. It has no clause, so that what `read_script` says isn't carried through what is shown.
fn read(alloc: Global, bytes: &[u8]) -> Result<Script, ScriptFault> {
    read_script(alloc, bytes)
}

/// Shows how many lines there are, and each of them.
fn show_lines(sheet: &mut Sheet, lines: &[ScriptLine]) {
    print!(sheet; " {} lines:", lines.len());
    for line in lines {
        show_line(sheet, line);
        sheet.print(";");
    }
    sheet.print("\n");
}

fn show_line(sheet: &mut Sheet, line: &ScriptLine) {
    match line {
        ScriptLine::At(moment) => print!(sheet; " at {moment}"),
        ScriptLine::Conn(name) => sheet.bytes(" conn", name.as_slice()),
        ScriptLine::Client(name, act) => {
            sheet.bytes(" client", name.as_slice());
            show_act(sheet, act);
        }
        ScriptLine::Command(word) => print!(sheet; " command {word:?}"),
        ScriptLine::Site(site) => show_site(sheet, site),
    }
}

fn show_act(sheet: &mut Sheet, act: &ClientAct) {
    match act {
        ClientAct::Send(bytes) => sheet.bytes(" sends", bytes.as_slice()),
        ClientAct::End => sheet.print(" ends"),
        ClientAct::Drop => sheet.print(" drops"),
        ClientAct::Room(room) => print!(sheet; " has room {room:?}"),
        ClientAct::Fail(call, number) => print!(sheet; " fails {call:?} {number}"),
    }
}

fn show_site(sheet: &mut Sheet, site: &SiteLine) {
    match site {
        SiteLine::Conf(text) => sheet.bytes(" conf", text.as_slice()),
        SiteLine::Clear => sheet.print(" clear"),
        SiteLine::File(name, bytes) => {
            sheet.bytes(" file", name.as_slice());
            sheet.bytes("", bytes.as_slice());
        }
        SiteLine::Unfile(name) => sheet.bytes(" unfile", name.as_slice()),
    }
}

/// Shows the script of a load of so many connections, for each row.
pub fn show_loads(sheet: &mut Sheet, alloc: Global, rows: &str) -> Result<(), NoMemory> {
    for row in rows.lines() {
        print!(sheet; "{row} =>");
        show_load(sheet, alloc, small_of(row))?;
    }
    Ok(())
}

fn show_load(sheet: &mut Sheet, alloc: Global, count: u32) -> Result<(), NoMemory> {
    if count < 1 || count > 100_000 {
        sheet.print(" no load\n");
        return Ok(());
    }
    let script = load(alloc, count)?;
    show_lines(sheet, script.lines());
    Ok(())
}

/// The script of the load. It has no clause, so that what `load_script` says isn't carried through what is shown.
fn load(alloc: Global, count: u32) -> Result<Script, NoMemory>
    requires some { 1 ≤ count }
    requires few { count ≤ 100000 }
{
    load_script(alloc, count)
}
