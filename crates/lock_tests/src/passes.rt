//! Two passes on one thread, and the entry of the first.
use board_lock::number;
use lock_examples::{Player, Toy, goes_on, looks};
use std::sync::Wait;
use test_rows::Sheet;

/// What came of the turns of two passes.
#[derive(Drop)]
struct Taken {
    /// Pass 0 made an entry.
    made: bool,
    /// How many entries pass 1 found, and pass 0.
    one: u64,
    zero: u64,
    /// What the lock kept.
    toy: Box<Toy>,
}

/// Shows what both passes find behind the entry of pass 0.
pub fn show_passes<R: Wait>(sheet: &mut Sheet, rt: &R, all: Vec<Player>) {
    match take_turns(rt, all) {
        Some(taken) => show_taken(sheet, &taken),
        None => sheet.println("a pass is missing"),
    }
}

/// Pass 0 makes an entry, and both passes look.
fn take_turns<R: Wait>(rt: &R, mut all: Vec<Player>) -> Option<Taken> {
    let Player { shared, pass } = all.pop()?;
    let mut one = pass;
    let Player { shared: same, pass } = all.pop()?;
    let mut zero = pass;
    if number(&one) != 1 || number(&zero) != 0 {
        return None;
    }
    let made = goes_on(rt, same, &mut zero);
    let found_by_one = looks(rt, shared, &mut one);
    let found_by_zero = looks(rt, same, &mut zero);
    Some(Taken {
        made,
        one: found_by_one,
        zero: found_by_zero,
        toy: shared.close(rt, one),
    })
}

/// Shows what came of the turns, and the entries.
fn show_taken(sheet: &mut Sheet, taken: &Taken) {
    println!(sheet; "pass 0 makes an entry => {}", taken.made);
    println!(sheet; "pass 1 finds {}, pass 0 finds {}", taken.one, taken.zero);
    for entry in taken.toy.entries() {
        println!(sheet;
            "{} {} {:?} {:?}",
            entry.pass, entry.ordinal, entry.event, entry.reply
        );
    }
}
