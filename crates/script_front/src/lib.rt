//! The front and the clock that play a script, and the store that has its files.
//!
//! `ScriptFront` is a front over a script: its connections arrive, send, end, fail and are dropped as the lines say, command
//! lines come, and time goes from moment to moment while nobody is served. It meets the trait `Front` of `mpm_base`, and no call
//! of it fails; what it shows of itself and the rules of its waits stand in `specs/ScriptFront.antt`, which signals are due in
//! `specs/Signals.antt`, and what holds between its parts in `specs/PlayedPartsInside.antt`. `FailingFront` is the same but that its
//! listed waits, accepts and watches fail (`specs/FailingFront.antt`). `ScriptClock` is the clock that goes with them. `script_store` makes the
//! store of a script, with all editions of its files; which these are stands in `specs/Editions.antt`.
//! Why it is so stands in docs/DECISIONS.md: 17, Scripts stand in two crates of their own.
#![tactic(auto)]

mod client_parts;
mod client_plans;
mod coming_lines;
mod draft;
mod due_places;
mod editions;
mod failing_front;
mod script_bell;
mod script_client;
mod script_clients;
mod script_clock;
mod script_commands;
mod script_front;
mod wait_end;
mod watch_end;
mod word_log;

pub use draft::CONF_NAME;
pub use editions::{editions_have_a_configuration, script_store};
pub use failing_front::FailingFront;
pub use script_bell::ScriptBell;
pub use script_clock::ScriptClock;
pub use script_front::ScriptFront;
