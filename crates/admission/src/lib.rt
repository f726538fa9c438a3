//! The admission rule of the event MPM: whether a child takes a further connection, and which child does.
//!
//! `admits` is the rule in exact arithmetic, for all 32-bit numbers. `pick` names the running child that
//! admits and has most idle workers, the lowest number on a tie. The definitions stand in `specs/Admission.antt`,
//! and what they mean for the child that is picked in `specs/Picked.antt`.
#![tactic(auto)]

ghost use Rattle.std.specs.Prelude.{◌≡◌, ◌↔◌, true, false, ℕ, List, [], All, IfSome, IsNone};
ghost use Rattle.std.specs.Option.{option_map_or};
ghost use Rattle.admission.specs.Admission.{has_room, is_candidate, candidates, pick_of};
ghost use Rattle.admission.specs.Picked.{IsPicked};
ghost use Rattle.admission.specs.PickedInside.{goes_before};

/// Whether a child of `t` workers takes a further connection beside its `count` open ones, where `idle`
/// of its workers carry nothing. `factor` is AsyncRequestWorkerFactor in hundredths. A connection that
/// is being closed does not count as open.
pub fn admits(t: u32, factor: u32, idle: u32, count: u32) -> bool
    ensures { result ≡ has_room t factor idle count }
{
    let open = 100 * count as u64;
    let workers = 100 * t as u64;
    open < workers || open - workers < factor as u64 * idle as u64
}

/// What the choice of a child looks at.
#[derive(Clone, Copy, Debug, Default, PartialEq, Eq)]
pub struct ChildCount {
    /// The number of the child.
    pub child: u32,
    /// Whether the child runs and is of the newest generation.
    pub running: bool,
    /// The number of its workers.
    pub t: u32,
    /// AsyncRequestWorkerFactor, in hundredths.
    pub factor: u32,
    /// How many of its workers carry nothing.
    pub idle: u32,
    /// Its open connections, those in closing left out.
    pub count: u32,
}

impl ChildCount {
    /// Whether the child runs and has room.
    fn is_candidate(&self) -> bool
        ensures { result ≡ is_candidate self.now }
    {
        self.running && admits(self.t, self.factor, self.idle, self.count)
    }

    /// Whether the child has more idle workers than `other`, or as many and a lower number.
    fn goes_before(&self, other: &ChildCount) -> bool
        ensures { result ≡ goes_before self.now other.now }
    {
        self.idle > other.idle || self.idle == other.idle && self.child < other.child
    }

    /// Whether the child goes before `best`, if there is one.
    fn is_first(&self, best: Option<ChildCount>) -> bool
        ensures { result ≡ option_map_or (goes_before self.now) best true }
    {
        best.is_none_or(|other| self.goes_before(&other))
    }
}

/// The number of the child that takes the next connection, where one may. The list may be in any order,
/// and may have a number more than once.
#[tactic(auto, using(crate::proofs::PickLemmas::pick_steps))]
pub fn pick(children: &[ChildCount]) -> Option<u32>
    ensures picked { result ≡ pick_of children.now }
    ensures chosen { IfSome result (IsPicked children.now) }
    ensures none { IsNone result ↔ All (λ c. is_candidate c ≡ false) children.now }
{
    let mut best: Option<ChildCount> = None;
    for child in children {
        if child.is_candidate() && child.is_first(best) {
            best = Some(*child);
        }
    }
    best.map(|child| child.child)
}

/// What `pick_of` gives, whatever the list: the number of a child that runs and has room, with most idle
/// workers and the lowest number on a tie; and none exactly where no child of the list runs and has room.
pub fn pick_is_a_candidate()
    ensures chosen { (cs : List ChildCount) (k : ℕ) → pick_of cs ≡ Some k → IsPicked cs k }
    ensures none { (cs : List ChildCount) → (pick_of cs ≡ None) ↔ (candidates cs ≡ []) }
{}
