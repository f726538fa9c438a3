//! Which form the words of command lines have. The words of a row stand behind its `$`, each after one space, and `''` is an empty word.
use command_words::{NoInvocation, invocation_of};
use mpm_base::{NoMemory, Words};
use std::alloc::Global;
use test_rows::Sheet;

/// Shows the form of each command line.
pub fn show_forms(sheet: &mut Sheet, alloc: Global, rows: &str) -> Result<(), NoMemory> {
    for line in rows.lines() {
        println!(sheet; "{line}");
        show_line(sheet, alloc, line)?;
    }
    Ok(())
}

/// Shows the form of the command line.
fn show_line(sheet: &mut Sheet, alloc: Global, line: &str) -> Result<(), NoMemory> {
    let words = words_of(alloc, line)?;
    show_form(sheet, alloc, &words)
}

/// Shows the form of the words.
fn show_form(sheet: &mut Sheet, alloc: Global, words: &Words) -> Result<(), NoMemory> {
    match invocation_of(alloc, words) {
        Ok(invocation) => println!(sheet; "{invocation:?}"),
        Err(NoInvocation::Unknown) => sheet.println("none of the forms"),
        Err(NoInvocation::NoMemory) => return Err(NoMemory),
    }
    Ok(())
}

/// The words of the command line.
fn words_of(alloc: Global, line: &str) -> Result<Words, NoMemory> {
    let mut words = Words::make(alloc);
    match add_words(&mut words, line) {
        Ok(()) => Ok(words),
        Err(NoMemory) => Err(NoMemory),
    }
}

/// Puts the words of the command line at the end.
fn add_words(words: &mut Words, line: &str) -> Result<(), NoMemory> {
    let mut parts = line.split(' ');
    let _ = parts.next();
    for part in parts {
        words.add(if part == "''" { "" } else { part })?;
    }
    Ok(())
}
