//! Responses: what a request is served of a site, and the bytes that say so.
//!
//! `ask_of` answers what is asked of the table for a request, and the plan of its response (`specs/Served.antt`,
//! `Ask.antt`), by its host (`chosen_host`), its target (`Target`), its method, its conditions (`Conditions`) and its range (`Range`). `response` writes the head by that plan
//! and the table's note behind what the buffer holds, and names the body (`Reply`, `Code`): the bytes of a file
//! stay in the site, a redirect keeps the query of its target (`Location`), and the status page shows the note's snapshot
//! (`StatusPage`). `refusal` answers a head that was refused. That files are those of the chosen host, and what conditions come to
//! (`ConditionLaws`), stands in `laws`.
#![tactic(auto)]

mod code;
mod conditions;
pub mod laws;
mod location;
mod plan;
mod planning;
mod range;
mod reply;
mod status_page;
mod target;
mod writing;

pub use code::{Code, continue_text};
pub use plan::{FilePart, Plan, Served};
pub use planning::ask_of;
pub use range::{Range, Selection};
pub use reply::{Body, Reply, refusal, response};
