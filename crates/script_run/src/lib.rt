//! What plays scripts: `--script FILE`, and `--load N`.
//!
//! `run_script` plays the script of a name in a store, and `run_load` that of a load, each by the configuration and the site that its lines
//! write, over a front, a clock and a store that play it. Which script that is stands in `specs/Scripts.antt`, what is left of its run in
//! `Played.antt`, and why one isn't played in `ScriptRefusals.antt`.
#![tactic(auto)]

mod playing;
mod scripted;

pub use playing::{run_load, run_script};
pub use scripted::Scripted;
