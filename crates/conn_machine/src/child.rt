//! The children: groups of workers, each of one generation.
ghost use Rattle.std.specs.Prelude.{◌≡◌, ◌==◌, ◌<◌, ◌≤◌, length, replicate, IfOk, slice_get};
ghost use Rattle.std.specs.List.{list_any};
ghost use Rattle.std.specs.Option.{option_copied};
ghost use Rattle.conn_machine.specs.Children as spec;
ghost use Rattle.conn_machine.specs.Folds.{is_child_of};
ghost use Rattle.conn_machine.specs.Lists.{update};

use mpm_base::{NoMemory, Shape};
use std::alloc::Global;
use std::marker::Model;

/// Whether a child takes connections.
#[derive(Clone, Copy, Debug, PartialEq, Eq)]
pub enum ChildPhase {
    /// There is no such child now.
    Empty,
    /// It takes connections.
    Running,
    /// It serves those that it has, and takes no more.
    Stopping,
}

impl ChildPhase {
    /// Whether there is no such child now.
    pub fn is_empty(self) -> bool
        ensures { result ≡ spec.is_empty self }
    {
        matches!(self, ChildPhase::Empty)
    }

    /// Whether it takes connections.
    pub fn is_running(self) -> bool
        ensures { result ≡ spec.is_running self }
    {
        matches!(self, ChildPhase::Running)
    }

    /// Whether it serves those that it has, and takes no more.
    pub fn is_stopping(self) -> bool
        ensures { result ≡ spec.is_stopping self }
    {
        matches!(self, ChildPhase::Stopping)
    }
}

/// A child.
#[derive(Clone, Copy, Debug, PartialEq, Eq)]
pub struct Child {
    pub phase: ChildPhase,
    /// The generation that it was started in.
    pub generation: u32,
    /// That generation's numbers. An Empty child has 0 threads.
    pub shape: Shape,
}

/// A list of children, as contracts see it, by their numbers.
#[derive(Debug, Drop)]
pub struct Children {
    items: Vec<Child>,
}

impl Model for Children {
    ghost use Rattle.std.specs.Prelude.{List};
    ghost use Rattle.conn_machine.specs.declared.child.Child.{Child};

    ghost Value = { List Child };

    ghost view = { λ c. c.items.items };
}

impl Child {
    /// A child that was never started.
    pub fn none() -> Child
        ensures { result ≡ spec.no_child }
    {
        Child {
            phase: ChildPhase::Empty,
            generation: 0,
            shape: Shape {
                threads: 0,
                factor: 0,
                read_ms: 0,
                keep_ms: 0,
                keep: false,
                most: 0,
                target: 0,
                children: 0,
                whole_ms: 0,
            },
        }
    }

    /// It takes connections no more, where it did.
    pub fn stop(&mut self)
        ensures { self.new ≡ spec.stopped_child self.old }
    {
        if self.phase.is_running() {
            self.phase = ChildPhase::Stopping;
        }
    }
}

impl Children {
    /// So many children, none of which was ever started.
    pub fn make(alloc: Global, children: u32) -> Result<Children, NoMemory>
        ensures { IfOk result (λ made. made ≡ replicate children spec.no_child) }
    {
        let mut items = Vec::new(alloc);
        for _ in 0..children {
            if items.push(Child::none()).is_err() {
                return Err(NoMemory);
            }
        }
        Ok(Children { items })
    }

    /// How many child numbers there are.
    pub fn len(&self) -> usize
        ensures { result ≡ length self.now }
    {
        self.items.len()
    }

    /// Whether there is no child number.
    pub fn is_empty(&self) -> bool
        ensures { result ≡ (length self.now == 0) }
    {
        self.items.is_empty()
    }

    /// The child of that number; beyond them one that was never started.
    pub fn get(&self, child: u32) -> Child
        ensures { result ≡ spec.child_at self.now child }
    {
        match self.items.get(child as usize) {
            Some(child) => *child,
            None => Child::none(),
        }
    }

    /// The child of that number, where there is one.
    pub fn find(&self, child: u32) -> Option<Child>
        ensures { result ≡ slice_get self.now child }
    {
        self.items.get(child as usize).copied()
    }

    /// The children, in the order of their numbers.
    pub fn as_slice(&self) -> &[Child]
        ensures { result.now ≡ self.now }
    {
        self.items.as_slice()
    }

    /// How many children run.
    pub fn running(&self) -> usize
        ensures is { result ≡ spec.running_count self.now }
        ensures few { result ≤ length self.now }
    {
        self.items
            .iter()
            .filter(|child| child.phase.is_running())
            .count()
    }

    /// Whether a child that is there is of the generation.
    pub fn has_one_of(&self, generation: u32) -> bool
        ensures { result ≡ list_any (is_child_of generation) self.now }
    {
        self.items.iter().any(|child| !child.phase.is_empty() && child.generation == generation)
    }

    /// The child begins to take connections.
    #[tactic(auto, using(crate::proofs::ListLemmas::set_is_update))]
    pub fn start(&mut self, child: u32, generation: u32, shape: Shape)
        requires { child < length self.old }
        ensures { self.new ≡ update self.old child (spec.started_child generation shape) }
    {
        let child = &mut self.items[child as usize];
        child.phase = ChildPhase::Running;
        child.generation = generation;
        child.shape = shape;
    }

    /// The child is gone.
    #[tactic(auto, using(crate::proofs::ListLemmas::set_is_update))]
    pub fn retire(&mut self, child: u32)
        requires { child < length self.old }
        ensures { self.new ≡ update self.old child spec.retired_child }
    {
        let child = &mut self.items[child as usize];
        child.phase = ChildPhase::Empty;
        child.shape.threads = 0;
    }

    /// No child takes connections any more.
    #[tactic(auto, using(crate::proofs::ChildLemmas::stopping))]
    pub fn stop_all(&mut self)
        ensures { self.new ≡ spec.all_stopped self.old }
    {
        for child in self.items.iter_mut() {
            child.stop();
        }
    }
}
