//! Laws of trails, for the crates that have trails of their own. Each is the contract of a function that does nothing.
ghost use Rattle.std.specs.Prelude.{◌≡◌, ◌≢◌, ◌<◌, ◌≤◌, ◌+◌, ℕ, List, [], ◌∷◌, ◌++◌, length};
ghost use Rattle.table_rule.specs.declared.trail.Step.{Step};
ghost use Rattle.table_rule.specs.Trails.{AreNumbered, AreOfMakers, GoesOn, steps_by};

/// A trail goes on by a step behind all others: one that found what was left, has the next number, and was made by one of
/// those who make steps, who may be more than before.
pub fn trails_go_on_by_one_step()
    ensures goes_on { (word : ℕ) (steps : List Step) (last : ℕ) (step : Step)
        → GoesOn word steps last
        → step.found ≡ last
        → GoesOn word (steps ++ step ∷ []) step.leaves }
    ensures numbered { (number : ℕ) (steps : List Step) (step : Step)
        → AreNumbered number steps
        → step.at ≡ number + length steps
        → AreNumbered number (steps ++ step ∷ []) }
    ensures of_makers { (before after : ℕ) (steps : List Step) (step : Step)
        → AreOfMakers before steps
        → before ≤ after
        → step.by < after
        → AreOfMakers after (steps ++ step ∷ []) }
{}

/// A further step is the last one of who made it, and no other's; who isn't one of the makers made none.
pub fn makers_have_their_own_steps()
    ensures own { (maker : ℕ) (steps : List Step) (step : Step)
        → step.by ≡ maker
        → steps_by maker (steps ++ step ∷ []) ≡ steps_by maker steps ++ step ∷ [] }
    ensures other { (maker : ℕ) (steps : List Step) (step : Step)
        → step.by ≢ maker
        → steps_by maker (steps ++ step ∷ []) ≡ steps_by maker steps }
    ensures none { (maker : ℕ) (steps : List Step)
        → AreOfMakers maker steps
        → steps_by maker steps ≡ [] }
{}
