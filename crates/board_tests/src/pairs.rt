//! Two boards that are given the same, of which one folds its history wherever it may, and the other one never does.
use crate::folds::show_folded;
use crate::moves::{LastBoard, last_board, site_of};
use crate::orders::{behind, show_asked};
use file_table::Site;
use mpm_base::NoMemory;
use std::alloc::Global;
use std::sync::Arc;
use test_rows::{Sheet, small_of};

/// What a row gives to boards.
#[derive(Clone, Copy)]
pub enum Given {
    /// A seed and a number of calls that numbers from it ask for.
    Numbers,
    /// Events and commands.
    Steps,
}

impl Given {
    /// The board of so many slots behind the row; none where it can't go on.
    fn board(
        self,
        alloc: Global,
        site: &Arc<Site>,
        slots: u32,
        row: &str,
        folding: bool,
    ) -> Result<Option<LastBoard>, NoMemory> {
        match self {
            Given::Numbers => last_board(alloc, site, slots, row, folding),
            Given::Steps => behind(alloc, site, slots, row, folding),
        }
    }
}

/// Shows of each row what came of two boards of so many slots to which it is given, and in what they differ.
pub fn show_pairs(
    sheet: &mut Sheet,
    alloc: Global,
    given: Given,
    slots: &str,
    rows: &str,
) -> Result<(), NoMemory> {
    let site = site_of(alloc)?;
    show_rows(sheet, alloc, given, &site, small_of(slots), rows)
}

/// The same, of boards whose connections have that site.
fn show_rows(
    sheet: &mut Sheet,
    alloc: Global,
    given: Given,
    site: &Arc<Site>,
    slots: u32,
    rows: &str,
) -> Result<(), NoMemory> {
    for row in rows.lines() {
        let folding = given.board(alloc, site, slots, row, true)?;
        show_beside(sheet, alloc, given, site, slots, row, folding.as_ref())?;
    }
    Ok(())
}

/// Shows what came of the first board and of one that is never folded, and in what they differ; or that one of them can't go on.
fn show_beside(
    sheet: &mut Sheet,
    alloc: Global,
    given: Given,
    site: &Arc<Site>,
    slots: u32,
    row: &str,
    folding: Option<&LastBoard>,
) -> Result<(), NoMemory> {
    let keeping = given.board(alloc, site, slots, row, false)?;
    match (given, folding, keeping.as_ref()) {
        (Given::Numbers, Some(folding), Some(keeping)) => {
            show_folded(sheet, alloc, row, folding, keeping)
        }
        (Given::Steps, Some(folding), Some(keeping)) => {
            show_asked(sheet, alloc, row, folding, keeping)
        }
        _ => {
            println!(sheet; "{row} => a board can't go on");
            Ok(())
        }
    }
}
