//! What a run leaves in writing: its report, its exit status, and the texts of commands whose run never opened.
//!
//! `tally` adds up what the report says, of the record of what was folded, of the history behind it and of the connections that ended;
//! `report_text` is its text (`specs/Report.antt`). `report_run` writes that of a run which opened, and answers the exit status
//! (`specs/Endings.antt`, which says too what stands in the output then, with `specs/Written.antt`). The other texts, and why a script or
//! a configuration is refused, stand in `specs/Texts.antt`.
#![tactic(auto)]

mod counting;
pub mod exit_status;
mod report;
mod reporting;
mod texts;
mod writing;

pub use counting::tally;
pub use report::{Tally, report_text};
pub use reporting::report_run;
pub use texts::{
    ConfigRefusal, ScriptRefusal, add_syntax_ok, config_refused_text, front_fault_text,
    no_control_line_text, script_refused_text, site_refused_text, store_fault_text, usage_text,
};
pub use writing::write_all;
