//! The rule of the table that passes share: what a pass knows, what holds of words, kept value and all passes between any
//! two atomic steps, the kinds of step, and that each keeps the rule.
//!
//! Word 0 is the turn word, word 1 the count of passes, word 2 + k the idle word of child k, for 32 children. Slot 0 holds
//! the kept value. What a pass knows is a `View`. The rule is `IsTied` in `specs/Tie.antt`: there is one history, of which
//! each pass has seen a beginning; one pass at a time has the turn; each idle word is what it ought to be (`specs/IdleWords.antt`);
//! and the steps on idle words, and the looks at the turn word with which passes wake up, stand in the views of those that made them,
//! each with what it found and left (`specs/Pasts.antt`).
//! What each kind of step tells stands in `specs/Steps.antt`. That each keeps the rule is a function of `laws`, which does
//! nothing; laws of trails stand in `laws_of_trails`. Which connection a pass has, and that it stays, are laws of `conn_machine`.
#![tactic(auto)]

pub mod laws;
pub mod laws_of_trails;
mod steps;
mod trail;
mod view;
mod words;

pub use steps::{
    CreditStep, DrawStep, GiveStep, IdleStep, NewPass, ReleaseStep, RestStep, TakeStep, Tie,
    TryStep, UncreditStep, UndoStep, WakeStep,
};
pub use trail::Step;
pub use view::{Draws, Hand, LastLeft, Origin, Past, View, Who};
pub use words::{BIAS, first_words};
