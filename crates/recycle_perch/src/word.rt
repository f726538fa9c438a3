//! The word of a place, and the steps on it.
ghost use Rattle.std.specs.Prelude.{[]};
ghost use Rattle.recycle_perch.specs.StepsInside.{LaysDown, Takes};
ghost use Rattle.recycle_perch.specs.Words.{IsRestWord};

use atomic_table::{PerchPlay, PerchRule};
use std::collections::LinkedList;
use table_rule::Step;

/// The rule of a place.
pub struct RestRule;

impl PerchRule<LinkedList<Step>> for RestRule {
    ghost holds = { IsRestWord };

    ghost first = { [] };
}

/// A step that takes what rests there.
pub struct PickUpStep;

impl PerchPlay<LinkedList<Step>> for PickUpStep {
    ghost then = { Takes };
}

/// A step that lays a carrier down where none rests.
pub struct LayDownStep;

impl PerchPlay<LinkedList<Step>> for LayDownStep {
    ghost then = { LaysDown };
}
