//! What ends a wait of the listener, and what a service passes where it begins. No clause speaks of either.

use crate::conn::ConnName;
use std::sync::Wait;

/// A bell of a front. Rung while the front waits, or before its next wait, it brings that wait back at once.
pub trait Bell: Drop {
    /// Rings the bell.
    fn ring(&self);
}

/// A gate that the service of each connection passes once it has its worker. The program's is always open; a test holds services there.
pub trait Gate {
    /// Passes the gate for the connection of that name.
    fn enter<R: Wait>(&self, rt: &R, name: ConnName);
}
