//! The listener: what it works on.
ghost use Rattle.std.specs.Prelude.{◌≡◌, ◌<◌};
ghost use Rattle.conn_machine.specs.Runs.{after};
ghost use Rattle.conn_machine.specs.Sound.{IsSound};

use crate::edition::{LoadedEdition, NamedConfig};
use board::Board;
use conn_state::Known;
use mpm_base::{Bell, Gate, Link, Moment, Ready};
use rounds::show_state;
use std::alloc::Global;
use worker_group::Hands;

/// What the listener works on, besides its front and its clock.
#[derive(Drop)]
pub struct Listener<'a, 'c, L: Link + Send, N: Known, B: Bell, G: Gate> {
    /// What gives new connections their memory.
    pub alloc: Global,
    /// The table of connections.
    pub board: Board<L, N>,
    /// The configuration by which the server opened, and its name.
    pub config: NamedConfig<'c>,
    /// What the newest generation works by, and so what new connections are served by.
    pub edition: LoadedEdition,
    /// The slots that the last wait gave.
    pub ready: Ready,
    /// What each service passes and rings.
    pub hands: Hands<'a, B, G>,
    /// Whether what stands in the output before the report was written whole so far.
    pub written: bool,
}

impl<'a, 'c, L: Link + Send, N: Known, B: Bell, G: Gate> Listener<'a, 'c, L, N, B, G> {
    /// Shows that the state is that after the history, and sound. Does nothing.
    pub fn show(&self)
        ensures after { after self.now.board.book.base self.now.board.book.history
            ≡ self.now.board.book.state }
        ensures sound { IsSound self.now.board.book.state }
    {
        show_state(&self.board);
    }

    /// The present moment.
    pub fn moment(&self) -> Moment
        ensures { result ≡ self.now.board.book.state.moment }
    {
        self.board.moment()
    }
}
