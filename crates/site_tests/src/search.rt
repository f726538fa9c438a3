//! The search among the names of a site.
ghost use Rattle.std.specs.Prelude.{◌<◌, IfOk};

use file_table::{Named, count_before};
use mpm_base::{NoMemory, Octets};
use std::alloc::Global;
use std::cell::Cell;
use test_rows::Sheet;

/// A name that counts how often it is looked at.
#[derive(Drop)]
struct Counted<'a> {
    name: Octets,
    looks: &'a Cell<u64>,
}

impl<'a> Named for Counted<'a> {
    ghost name_of = { λ c. c.name };

    fn name(&self) -> &[u8] {
        self.looks.set(self.looks.get().wrapping_add(1));
        self.name.as_slice()
    }
}

/// The five digits of a number.
fn digits(alloc: Global, number: u32) -> Result<Octets, NoMemory>
    requires { number < 65536 }
{
    let digit = |power: u32| b'0' + (number / power % 10) as u8;
    Octets::of(
        alloc,
        &[digit(10_000), digit(1_000), digit(100), digit(10), digit(1)],
    )
}

/// The names of 65,536 numbers, in order.
fn numbered<'a>(alloc: Global, looks: &'a Cell<u64>) -> Result<Vec<Counted<'a>>, NoMemory> {
    let mut items = Vec::new(alloc);
    for number in 0..65_536 {
        let name = digits(alloc, number)?;
        items.push(Counted { name, looks })?;
    }
    Ok(items)
}

/// Shows before how many names each name has its place, and whether at most 17 were looked at.
pub fn show_search(sheet: &mut Sheet, alloc: Global, rows: &str) -> Result<(), NoMemory> {
    let looks = Cell::new(0);
    let items = numbered(alloc, &looks)?;
    for row in rows.lines() {
        show_place(sheet, &looks, items.as_slice(), row);
    }
    Ok(())
}

/// Shows before how many of the names the name of the row has its place, and whether at most 17 were looked at.
fn show_place(sheet: &mut Sheet, looks: &Cell<u64>, items: &[Counted<'_>], row: &str) {
    let (front, back) = row.split_once('|').unwrap_or((row, ""));
    looks.set(0);
    let place = count_before(items, front.as_bytes(), back.as_bytes());
    println!(sheet; "{row} => {place}, {}", looks.get() <= 17);
}
