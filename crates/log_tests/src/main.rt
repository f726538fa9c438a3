//! Tests of the file of a log, by public calls alone, over the folder that the program runs in. The file `stdin` has what is called, row by
//! row, and `stdout` what must come of it; the scenes of `.ci/log_scenes.py` give the program rows of their own.
//!
//! In the input a line that begins with `== ` begins a section, which has a log of its own; in a piece `|` stands for a line feed.
//!
//! - `begin NAME` opens the log. `write PIECE` writes the piece, once.
//! - `show NAME` shows what a file has.
//! - `folder NAME`, `link TARGET NAME`, `rename OLD NEW` and `remove NAME` change the folder; `forget NAME` removes a file or a link that
//!   an earlier run may have left, and `clear NAME` a folder with all that is in it. Where a change fails, why is shown.
#![tactic(auto)]

use mpm_base::{Logs, Sink};
use std::alloc::Global;
use std::rt::Files;
use std::{fs, io};
use system_outside::{LogFile, Operator};
use test_rows::{Marks, Section, begin_section, grown, sections_of, show_bytes, text_of, words};

fn main(rt: HostRuntime) -> io::Result<()> {
    let input = io::read_to_string(rt.alloc(), rt.reader())?;
    show_sections(&rt, input.as_str())
}

/// Shows what comes of each section of the input.
fn show_sections<R: Files + AllocGlobal + Print + Eprint>(rt: &R, input: &str) -> io::Result<()> {
    let operator = Operator::present(rt, None);
    for text in sections_of(input) {
        let Section { rows, .. } = begin_section(rt, text)?;
        let mut log = LogFile::new(rt, &operator);
        show_rows(rt, &mut log, rows)?;
    }
    Ok(())
}

/// Shows what comes of each row of a section.
fn show_rows<R: Files + AllocGlobal + Print, L: Logs>(
    rt: &R,
    log: &mut L,
    rows: &str,
) -> io::Result<()> {
    for row in rows.lines() {
        show_row(rt, rt.alloc(), log, row)?;
    }
    Ok(())
}

/// Shows what comes of the row.
fn show_row<R: Files + AllocGlobal + Print, L: Logs>(
    rt: &R,
    alloc: Global,
    log: &mut L,
    row: &str,
) -> io::Result<()> {
    let (word, rest) = words(row);
    match word {
        "begin" => {
            let is_open = log.begin(rest);
            println!(rt; "{row} => {is_open}")
        }
        "write" => {
            let piece = grown(text_of(alloc, rest, Marks::Lines))?;
            let put = log.write(piece.as_slice());
            println!(rt; "{row} => {put:?}")
        }
        "show" => show_file(rt, alloc, row, rest),
        _ => show_change(rt, row, change(rt, word, rest)),
    }
}

/// Shows what the file of that name has, or why it can't be read.
fn show_file<R: Files + AllocGlobal + Print>(
    rt: &R,
    alloc: Global,
    row: &str,
    name: &str,
) -> io::Result<()> {
    match fs::read(rt, name) {
        Ok(bytes) => {
            show_bytes(rt, alloc, row, bytes.as_slice())?;
            println!(rt)
        }
        Err(error) => println!(rt; "{row} => {:?}", error.kind()),
    }
}

/// Changes the folder as the row says.
fn change<R: Files + AllocGlobal>(rt: &R, word: &str, rest: &str) -> io::Result<()> {
    let (first, second) = words(rest);
    match word {
        "folder" => fs::create_dir(rt, first),
        "link" => rt.symlink(first, second),
        "rename" => fs::rename(rt, first, second),
        "remove" => fs::remove_file(rt, first),
        "forget" => {
            let _ = fs::remove_file(rt, first);
            Ok(())
        }
        _ => {
            let _ = fs::remove_dir_all(rt, first);
            Ok(())
        }
    }
}

/// Shows that the folder was changed as the row says, or why it wasn't.
fn show_change<R: Print>(rt: &R, row: &str, changed: io::Result<()>) -> io::Result<()> {
    match changed {
        Ok(()) => println!(rt; "{row}"),
        Err(error) => println!(rt; "{row} => {:?}", error.kind()),
    }
}
