//! What whoever runs the server is told on standard error, beside what the run prints. No clause speaks of it.
//! Why it is so stands in docs/DECISIONS.md: 101, What standard error says.

use std::fmt::Display;
use std::net::SocketAddr;

/// How many bytes a character has at most.
const MOST_BYTES: usize = 4;

/// Whoever runs the server, who reads standard error. Each text is one line, and begins with the program's name. One that can't be
/// written is lost.
#[derive(Drop)]
pub struct Operator<'a, E: Eprint> {
    error_output: &'a E,
    is_told: bool,
    // How many connections the server takes at its start, where that is known.
    connections: Option<u32>,
}

impl<'a, E: Eprint> Operator<'a, E> {
    /// Nobody: nothing is told.
    pub fn absent(error_output: &'a E) -> Operator<'a, E> {
        Operator {
            error_output,
            is_told: false,
            connections: None,
        }
    }

    /// Who runs a server, which takes so many connections at its start where that is known, or sends one a command.
    pub fn present(error_output: &'a E, connections: Option<u32>) -> Operator<'a, E> {
        Operator {
            error_output,
            is_told: true,
            connections,
        }
    }

    /// The server listens at the address: tells that, where the system says the address, and how many connections it takes.
    pub fn hear_of_start(&self, address: Option<SocketAddr>) {
        if let Some(address) = address {
            self.hear(format_args!("listening on {address}"));
        }
        if let Some(connections) = self.connections {
            self.hear(format_args!("takes {connections} connections at its start"));
        }
    }

    /// A restart was answered with the text, which is one line. Where a name in it was cut within a character, what stands before that is told.
    pub fn hear_of_answer(&self, text: &[u8]) {
        let line = text.strip_suffix(b"\n").unwrap_or(text);
        for cut in 0..MOST_BYTES {
            let front = &line[..line.len().saturating_sub(cut)];
            if let Ok(told) = str::from_utf8(front) {
                self.hear(told);
                return;
            }
        }
    }

    /// What was tried at that address or name failed, for that reason.
    pub fn hear_of_fault<N: Display + Drop, W: Display + Drop>(
        &self,
        tried: &str,
        name: N,
        why: W,
    ) {
        self.hear(format_args!("cannot {tried} {name}: {why}"));
    }

    /// Tells the text.
    fn hear<T: Display + Drop>(&self, text: T) {
        if self.is_told {
            let _ = eprintln!(self.error_output; "event_server: {text}");
        }
    }
}
