//! The listener serves what it pushed itself, where no worker has a thread.
ghost use Rattle.std.specs.Prelude.{◌≡◌, ◌≤◌, vec_len};
ghost use Rattle.recycle_perch.specs.Looking.{AreOf};

use crate::handing::hand_over;
use crate::lines::Line;
use board_lock::Room;
use conn_state::Known;
use listener_parts::{Credits, Workers};
use mpm_base::{Bell, Gate, Link};
use recycle_perch::Looks;
use std::sync::Wait;
use worker_threads::{Hands, serve_one};

/// Serves what stands in the queues of all children, until each is empty.
pub fn serve_here<R: Wait, M: Room, L: Link, N: Known, B: Bell, G: Gate>(
    rt: &R,
    hands: &Hands<'_, M, L, N, B, G>,
    looks: &mut Looks,
    lines: &mut Vec<Line<'_, M, L, N>>,
)
    requires looks { AreOf hands.now.perch.now.places looks.old }
    ensures looks { AreOf hands.now.perch.now.places looks.new }
    ensures lines { vec_len lines.new ≡ vec_len lines.old }
{
    for child in 0..lines.len() {
        serve_line(rt, hands, looks, &mut lines[child]);
    }
}

/// Serves what stands in the queue, until it is empty.
fn serve_line<R: Wait, M: Room, L: Link, N: Known, B: Bell, G: Gate>(
    rt: &R,
    hands: &Hands<'_, M, L, N, B, G>,
    looks: &mut Looks,
    line: &mut Line<'_, M, L, N>,
)
    requires { AreOf hands.now.perch.now.places looks.old }
    ensures { AreOf hands.now.perch.now.places looks.new }
{
    for _ in rt.forever() {
        let Some(pair) = line.pop(rt) else {
            return;
        };
        let _ = serve_one(rt, hands, looks, pair);
    }
    unreachable!()
}

/// The workers of all children, where none has a thread: the listener serves for them.
#[derive(Drop)]
pub struct WorksHere<'a, 'b, M: Room, L: Link, N: Known, B: Bell, G: Gate> {
    pub hands: &'a Hands<'b, M, L, N, B, G>,
    pub looks: Looks,
    pub lines: Vec<Line<'a, M, L, N>>,
    ghost looks_of: { AreOf hands.now.perch.now.places looks },
    ghost few: { vec_len lines ≤ 32 },
}

impl<M: Room, L: Link, N: Known, B: Bell, G: Gate> WorksHere<'_, '_, M, L, N, B, G> {
    /// Hands what is signalled to the workers, and serves it for them.
    pub fn hand_over<R: Wait>(&mut self, rt: &R, credits: &Credits) {
        hand_over(rt, self.hands, &mut self.looks, &mut self.lines, credits);
        serve_here(rt, self.hands, &mut self.looks, &mut self.lines);
    }
}

impl<M: Room, L: Link, N: Known, B: Bell, G: Gate> Workers for WorksHere<'_, '_, M, L, N, B, G> {
    fn end<R: Wait>(&mut self, rt: &R, child: u32) {
        let child = child as usize;
        if child < self.lines.len() {
            serve_line(rt, self.hands, &mut self.looks, &mut self.lines[child]);
        }
    }

    fn finish<R: Wait>(&mut self, rt: &R) {
        serve_here(rt, self.hands, &mut self.looks, &mut self.lines);
    }
}
