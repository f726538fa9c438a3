//! Configurations by example.
use crate::configured_types::{show_marks, show_types};
use mpm_base::{NoMemory, Octets};
use mpm_config::{
    Config, HostConf, Warning, Warnings, carry_limits, read_config, shape_of, warning_text,
};
use std::alloc::Global;
use test_rows::{Marks, Sheet, number_of, text_of};

/// Shows what the section asks of each configuration.
pub fn show_rows(sheet: &mut Sheet, alloc: Global, kind: &str, rows: &str) -> Result<(), NoMemory> {
    for row in rows.lines() {
        print!(sheet; "{row} => ");
        show_row(sheet, alloc, kind, row)?;
    }
    Ok(())
}

/// Shows what the section asks of the configuration of the row.
fn show_row(sheet: &mut Sheet, alloc: Global, kind: &str, row: &str) -> Result<(), NoMemory> {
    let text = written(alloc, kind, row)?;
    show_text(sheet, alloc, kind, text.as_slice())
}

/// The configuration that the row of the section writes.
fn written(alloc: Global, kind: &str, row: &str) -> Result<Octets, NoMemory> {
    match kind {
        "bytes" => bytes_of(alloc, row),
        "long" => with_name(alloc, row),
        _ => text_of(alloc, row, Marks::Lines),
    }
}

/// Shows what the section asks of the configuration, or why it is refused.
fn show_text(sheet: &mut Sheet, alloc: Global, kind: &str, text: &[u8]) -> Result<(), NoMemory> {
    match read_config(alloc, text) {
        Ok((config, warnings)) => show_config(sheet, alloc, kind, &config, &warnings),
        Err(fault) => {
            println!(sheet; "{fault:?}");
            Ok(())
        }
    }
}

/// Shows what the section asks of the configuration.
fn show_config(
    sheet: &mut Sheet,
    alloc: Global,
    kind: &str,
    config: &Config,
    warnings: &Warnings,
) -> Result<(), NoMemory> {
    match kind {
        "numbers" => println!(sheet; "{:?}", config.written),
        "corrected" => println!(sheet; "{:?}", config.now),
        "shape" => println!(sheet; "{:?}", shape_of(config)),
        "values" => show_values(sheet, config),
        "hosts" => show_hosts(sheet, config),
        "marks" => show_marks(sheet, config),
        "media" => show_types(sheet, &config.types),
        "warnings" => return show_warnings(sheet, alloc, warnings),
        _ => sheet.println("accepted"),
    }
    Ok(())
}

/// Shows what of the configuration is no number.
fn show_values(sheet: &mut Sheet, config: &Config) {
    print!(sheet; "{:?} {:?}", config.listen, config.control);
    sheet.bytes("", config.root.as_slice());
    sheet.bytes("", config.index.as_slice());
    if let Some(log) = &config.log {
        sheet.bytes(" log", log.as_bytes());
    }
    sheet.println(if config.status {
        ""
    } else {
        " without the status page"
    });
}

/// Shows how many hosts the configuration has, and each of them.
fn show_hosts(sheet: &mut Sheet, config: &Config) {
    println!(sheet; "{}", config.hosts.as_slice().len());
    for host in config.hosts.as_slice() {
        show_host(sheet, host);
    }
}

/// Shows the names of the host, its root and its index.
fn show_host(sheet: &mut Sheet, host: &HostConf) {
    for name in host.names.as_slice() {
        sheet.text(name.as_slice());
        sheet.print(" ");
    }
    sheet.print("in ");
    sheet.text(host.root.as_slice());
    sheet.print(", ");
    sheet.text(host.index.as_slice());
    sheet.print("\n");
}

/// Shows what an operator reads of the warnings.
fn show_warnings(sheet: &mut Sheet, alloc: Global, warnings: &Warnings) -> Result<(), NoMemory> {
    println!(sheet; "{}", warnings.as_slice().len());
    for warning in warnings.as_slice() {
        show_warning(sheet, alloc, warning)?;
    }
    Ok(())
}

/// Shows what an operator reads of the warning.
fn show_warning(sheet: &mut Sheet, alloc: Global, warning: &Warning) -> Result<(), NoMemory> {
    let line = warning_text(alloc, warning)?;
    sheet.text(line.as_slice());
    Ok(())
}

/// The bytes of these numbers.
fn bytes_of(alloc: Global, row: &str) -> Result<Octets, NoMemory> {
    let mut text = Octets::make(alloc);
    for number in row.split(' ') {
        text.add(&[number.parse::<u8>().unwrap_or(0)])?;
    }
    Ok(text)
}

/// The directive of the row, with a name of so many bytes.
fn with_name(alloc: Global, row: &str) -> Result<Octets, NoMemory> {
    let (directive, length) = row.split_once(' ').unwrap_or((row, ""));
    let mut text = Octets::of(alloc, directive.as_bytes())?;
    match add_name(&mut text, number_of(length)) {
        Ok(()) => Ok(text),
        Err(NoMemory) => Err(NoMemory),
    }
}

/// Puts a name of so many bytes at the end, behind a space.
fn add_name(text: &mut Octets, length: u64) -> Result<(), NoMemory> {
    text.add(b" ")?;
    for _ in 0..length {
        text.add(b"a")?;
    }
    Ok(())
}

/// Shows what configurations become that follow others.
pub fn show_restarts(sheet: &mut Sheet, alloc: Global, rows: &str) -> Result<(), NoMemory> {
    for row in rows.lines() {
        println!(sheet; "{row}");
        show_restart(sheet, alloc, row)?;
    }
    Ok(())
}

/// Shows what the new configuration of the row becomes behind the old one.
fn show_restart(sheet: &mut Sheet, alloc: Global, row: &str) -> Result<(), NoMemory> {
    let (old, new) = row.split_once(" => ").unwrap_or((row, ""));
    let old = text_of(alloc, old, Marks::Lines)?;
    let new = text_of(alloc, new, Marks::Lines)?;
    show_behind(sheet, alloc, old.as_slice(), new.as_slice());
    Ok(())
}

/// Shows what the new configuration becomes behind the old one.
fn show_behind(sheet: &mut Sheet, alloc: Global, old: &[u8], new: &[u8]) {
    match read_config(alloc, old) {
        Ok((old, _)) => show_carried(sheet, alloc, &old, new),
        Err(_) => sheet.println("refused"),
    }
}

/// Shows what the new configuration becomes behind the old one, which was read.
fn show_carried(sheet: &mut Sheet, alloc: Global, old: &Config, new: &[u8]) {
    match read_config(alloc, new) {
        Ok((mut new, _)) => {
            carry_limits(old, &mut new);
            print!(sheet; "{:?}\n{:?}\n", shape_of(&new), new.written);
        }
        Err(_) => sheet.println("refused"),
    }
}
