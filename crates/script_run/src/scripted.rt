//! What is left of a run over a script.
use board::Board;
use conn_state::Nothing;
use mpm_config::Config;
use script_front::{ScriptClock, ScriptFront};
use stand_ins::{PlainStore, ScriptLink};

/// What is left of a run over a script.
#[derive(Drop)]
pub struct Scripted {
    /// The table of connections, as the run left it.
    pub board: Board<ScriptLink, Nothing>,
    /// The front that played the script.
    pub front: ScriptFront,
    /// The clock of the run.
    pub clock: ScriptClock,
    /// The store of the script, at the edition at which the run left it.
    pub store: PlainStore,
    /// The configuration by which the run opened.
    pub config: Config,
}
