//! A queue of plans, for an owner of a card's end that receives plans one by one.
ghost use Rattle.std.specs.Prelude.{◌≡◌, ℕ, [], ◌∷◌, ◌++◌, length, None, MatchOption, OnOk, OnErr, if◌then◌else◌};
ghost use Rattle.t0_core.specs.Plan.{advanced};

use crate::plan::{Plan, Plans};
use std::alloc::{AllocError, Allocator, Global};
use std::marker::Model;
use std::mem;

/// The plans that wait, and the one taken last. Contracts see it as a cursor over the plans that
/// wait.
///
/// A plan takes 32 bytes with `Global`, and a block for its steps. The queue's own block grows by
/// doubling. It does not shrink as plans are taken, and is freed when no plan waits. Taking a plan
/// allocates nothing. Its steps are freed when the next plan is taken.
#[derive(Drop)]
pub struct PlanQueue<A: Allocator + Copy = Global> {
    /// Plans without steps in place of those taken, followed by the plans that wait.
    plans: Vec<Plan<A>, A>,
    /// The number of plans taken: at most the number that wait.
    taken: usize,
    kept: Option<Plan<A>>,
}

impl<A: Allocator + Copy> Model for PlanQueue<A> {
    ghost use Rattle.std.specs.Prelude.{◌≤◌, length, drop};
    ghost use Rattle.t0_core.specs.Plan.{Cursor};

    ghost Value = { Cursor };

    ghost view = { λ q. record { rest = drop q.taken q.plans.items; kept = q.kept } };

    ghost invariant = { λ q. q.taken ≤ length q.plans.items };
}

impl<A: Allocator + Copy> PlanQueue<A> {
    /// Makes an empty queue. It allocates nothing.
    pub fn new(alloc: A) -> PlanQueue<A>
        ensures { result ≡ record { rest = []; kept = None } }
    {
        PlanQueue::of(Vec::new(alloc))
    }

    /// Makes a queue of these plans, which all wait.
    pub fn of(plans: Vec<Plan<A>, A>) -> PlanQueue<A>
        ensures { result ≡ record { rest = plans.items; kept = None } }
    {
        PlanQueue {
            plans,
            taken: 0,
            kept: None,
        }
    }

    /// The number of plans that wait, without the one taken last.
    pub fn len(&self) -> usize
        ensures { result ≡ length self.now.rest }
    {
        self.plans.len() - self.taken
    }

    /// Appends a plan, which is taken after those that wait.
    ///
    /// # Errors
    ///
    /// - `AllocError`: memory ran out; the queue is unchanged, and the plan is dropped.
    pub fn push(&mut self, plan: Plan<A>) -> Result<(), AllocError>
        ensures ok { OnOk result
            (self.new ≡ record self.old { rest = self.old.rest ++ plan ∷ [] }) }
        ensures stays { OnErr result (self.new ≡ self.old) }
    {
        self.plans.push(plan).map_err(AllocError::from)
    }

    /// Returns a cursor over the queue, which keeps the plan taken last. A plan that the cursor
    /// takes stays in the queue: call `advance` or `advance_if` too.
    pub fn cursor(&self) -> Plans<'_, A>
        ensures { result ≡ self.now }
    {
        Plans::keeping(self.kept.as_ref(), &self.plans[self.taken..])
    }

    /// Takes the next plan, as a cursor does; if none waits, no plan is kept. On average this moves
    /// one plan.
    pub fn advance(&mut self)
        ensures { self.new ≡ advanced self.old }
    {
        self.kept = self.take_first();
        self.clear_taken();
    }

    /// Takes the next plan if `takes_plan`, which is `CardEnd::takes_plan` from before the `turn`.
    /// Otherwise nothing changes.
    pub fn advance_if(&mut self, takes_plan: bool)
        ensures { self.new ≡ (if takes_plan then advanced self.old else self.old) }
    {
        // Most queues hold no plan.
        if takes_plan && (self.len() != 0 || self.kept.is_some()) {
            self.advance();
        }
    }

    /// Removes the first plan that waits, if any. The kept plan stays.
    fn take_first(&mut self) -> Option<Plan<A>>
        ensures first { MatchOption result ((self.old.rest ≡ []) × (self.new.rest ≡ []))
            (λ plan. self.old.rest ≡ plan ∷ self.new.rest) }
    {
        if self.taken == self.plans.len() {
            return None;
        }
        let empty = Plan::plain(*self.plans.allocator());
        let first = mem::replace(&mut self.plans[self.taken], empty);
        self.taken += 1;
        Some(first)
    }

    /// Frees the places of taken plans, once they are as many as the plans that wait.
    fn clear_taken(&mut self)
        ensures { self.new ≡ self.old }
    {
        if self.taken < self.len() {
            return;
        }
        self.plans.drain(..self.taken);
        self.taken = 0;
        if self.plans.is_empty() {
            self.plans.shrink_to_fit();
        }
    }
}
