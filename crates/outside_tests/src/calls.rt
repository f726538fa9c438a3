//! Calls that fail, as rows list them.
use mpm_base::NoMemory;
use stand_ins::Calls;
use std::alloc::Global;
use test_rows::number_of;

/// The numbers of a row.
pub fn calls_of(alloc: Global, row: &str) -> Result<Calls, NoMemory> {
    let mut calls = Calls::make(alloc);
    for number in row.split(' ') {
        calls.add(number_of(number))?;
    }
    Ok(calls)
}
