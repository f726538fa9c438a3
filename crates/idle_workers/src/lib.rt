//! The idle words: how many workers of a child nobody may use yet.
//!
//! A pass that has nothing reserves a worker of a child, and so gets a permit, where one is left; it releases it when its
//! connection is parked or closed. The listener gives a child the credit of its workers, and takes it back where no permit
//! is out. None of this waits or takes memory. Each step of a call on its idle word stands in the pass's view, with the number
//! that it found and the one that it left, and the rule of `table_rule` compares them with the word. So the clauses say exactly
//! when a call answers what (`specs/Found.antt`).
#![tactic(auto)]

mod words;

pub use words::{credit, idle, release, reserve, uncredit};
