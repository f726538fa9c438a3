//! The words of the command line: clap parses them as options, and the options that stand there say which of the forms they have.
//!
//! What the words of each form name stands in `specs/Invocations.antt`.
#![tactic(auto)]

mod invocation;
pub mod laws;
mod options;

pub use invocation::{Invocation, NoInvocation, invocation_of};
