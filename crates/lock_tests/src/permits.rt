//! The permits of a child with two workers, on one thread.
use crate::starter::{Left, Starter};
use crate::trier::Trier;
use lock_examples::Player;
use std::sync::Wait;
use test_rows::Sheet;

/// What came of three carriers that reserve workers.
#[derive(Clone, Copy)]
struct Tried {
    /// How many workers nobody had a permit of: at first, behind three reservations, and behind a release.
    idle: [u32; 3],
    /// Which of the carriers got one.
    got: [bool; 3],
    /// The third one got one behind the release.
    three_again: bool,
    /// What was left while permits were out.
    left: Left,
}

/// Shows what comes of three carriers that reserve workers.
pub fn show_permits<R: Wait>(sheet: &mut Sheet, rt: &R, all: Vec<Player>) {
    match try_permits(rt, all) {
        Some(tried) => show_tried(sheet, tried),
        None => sheet.println("a pass is missing, or the child has no workers"),
    }
}

/// Pass 0 starts the child, and three carriers reserve workers.
fn try_permits<R: Wait>(rt: &R, mut all: Vec<Player>) -> Option<Tried> {
    let mut three = Trier::of(all.pop()?);
    let mut two = Trier::of(all.pop()?);
    let mut one = Trier::of(all.pop()?);
    let mut zero = Starter::begin(rt, all.pop()?)?;
    let idle_first = zero.idle();
    let got = [one.reserve(), two.reserve(), three.reserve()];
    let idle_behind = zero.idle();
    one.release();
    let idle_again = zero.idle();
    let three_again = three.reserve();
    Some(Tried {
        idle: [idle_first, idle_behind, idle_again],
        got,
        three_again,
        left: zero.leave(),
    })
}

/// Shows what came of it.
fn show_tried(sheet: &mut Sheet, tried: Tried) {
    let [first, behind, again] = tried.idle;
    let [one, two, three] = tried.got;
    println!(sheet; "idle => {first}\nreserved => {one}, {two}, {three}\nidle => {behind}");
    println!(sheet;
        "idle behind a release => {again}\nreserved by the third => {}\ncredit taken back => {}",
        tried.three_again, tried.left.uncredited
    );
}
