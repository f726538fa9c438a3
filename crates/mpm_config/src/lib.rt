//! The configuration language of the server: a text in the manner of an Apache configuration, as the operator's page
//! `docs/CONFIGURATION.md` describes it.
//!
//! `read_config` accepts just the texts of the language and answers what they configure, with a warning for each
//! number that was corrected; else it names the first fault with its line. `carry_limits` keeps the two limits
//! over a restart, and `shape_of` gives the shape of a configuration, which is in its bounds.
//! The definition is `config_of` in `specs/Reading.antt`: the lines of a text and their words (of the crate `conf_text`), the kind of each
//! line (`Form`), what its words set (`Directive`, `Value`, `NumberRange`, `Setting`, `Settings`; of types in the crate `type_words`) and the
//! corrections (`Correction`). The section of a host sets what it has of its own (`HostName`, `HostSettings` in `Settings`), and the hosts
//! are made of these once the text is read (`confs_by`; `HostConf`, `Config`). `laws` says what these come to.
#![tactic(auto)]

mod config;
mod correction;
mod directive;
mod draft;
mod fault;
mod form;
mod host_conf;
mod host_draft;
mod host_name;
mod laws;
mod numbers;
mod range;
mod read;
mod reader;
mod setting;
mod value;
mod warning;

pub use config::{Config, carry_limits, shape_of};
pub use correction::warning_text;
pub use fault::ConfFault;
pub use host_conf::{HostConf, HostConfs};
pub use laws::{
    configured_types_are_printable, corrected_numbers_are_in_bounds, first_refusal_decides,
    later_settings_replace, skipped_lines_set_nothing,
};
pub use numbers::Numbers;
pub use read::read_config;
pub use warning::{Warning, Warnings};
