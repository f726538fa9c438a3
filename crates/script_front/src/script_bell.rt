//! The bell of a front that plays a script.

use mpm_base::Bell;

/// A bell of a script's front. To ring it does nothing: nobody rings until there are worker threads, and a wait whose `quiet`
/// is false, which would last until it rings, answers at once.
#[derive(Drop)]
pub struct ScriptBell;

impl Bell for ScriptBell {
    fn ring(&self) {}
}
