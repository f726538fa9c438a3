//! The forms of the command line that go by a configuration file of the store: `-f FILE`, `-t -f FILE`, and `-k WORD -f FILE`.
//!
//! `serve_file` serves over the front and the clock, by the configuration and the site of the store; `test_config` tests the configuration;
//! and `send_command` sends a word to its control port. Why each ends with its exit status, and what it leaves, stands in
//! `specs/Ends.antt`.
#![tactic(auto)]

mod command_run;
mod config_test;
mod serve_run;

pub use command_run::send_command;
pub use config_test::test_config;
pub use serve_run::serve_file;
