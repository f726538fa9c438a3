//! The gate of the program.

use mpm_base::{ConnName, Gate};
use std::sync::Wait;

/// A gate that is always open.
#[derive(Clone, Copy, Debug)]
pub struct OpenGate;

impl Gate for OpenGate {
    /// Returns at once.
    fn enter<R: Wait>(&self, _: &R, _: ConnName) {}
}
