//! The status pages, whole, and the one that responses show.
ghost use Rattle.std.specs.Prelude.{◌≡◌, IfOk, is_some};

use mpm_base::{NoMemory, Octets, Page, Snapshot};
use scoreboard::{page_auto, page_html};
use std::alloc::Global;
use std::str::Split;
use test_rows::{Sheet, small_of};

/// Shows both pages of the snapshot of the row, and how many bytes they have.
pub fn show_page(sheet: &mut Sheet, alloc: Global, row: &str) -> Result<(), NoMemory> {
    let snapshot = snapshot_of(alloc, row)?;
    let text = page_auto(alloc, &snapshot)?;
    let page = page_html(alloc, &snapshot)?;
    println!(sheet; " {} and {}", text.len(), page.len());
    sheet.text(text.as_slice());
    sheet.text(page.as_slice());
    Ok(())
}

/// What each status page of a response shows, no two of its numbers being the same.
const SHOWN: &str = "R_WC.G 10 4 1 29 8 7 5";

/// The status page of a response, where it is to be one.
pub fn page_where(alloc: Global, wanted: bool) -> Result<Option<Page>, NoMemory>
    ensures { IfOk result (λ page. is_some page ≡ wanted) }
{
    if !wanted {
        return Ok(None);
    }
    let snapshot = snapshot_of(alloc, SHOWN)?;
    Ok(Some(Page::make(alloc, snapshot)?))
}

/// The snapshot of these numbers and letters.
fn snapshot_of(alloc: Global, row: &str) -> Result<Snapshot, NoMemory> {
    let mut words = row.split(' ');
    let letters = Octets::of(alloc, words.next().unwrap_or("").as_bytes())?;
    Ok(Snapshot {
        generation: next_of(&mut words),
        busy: next_of(&mut words),
        idle: next_of(&mut words),
        total: next_of(&mut words),
        writing: next_of(&mut words),
        keep_alive: next_of(&mut words),
        closing: next_of(&mut words),
        letters,
    })
}

/// The number that the next word writes.
fn next_of(words: &mut Split<'_, char>) -> u32 {
    small_of(words.next().unwrap_or(""))
}
