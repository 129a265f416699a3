//! Plans: which procedure bytes a card sends, and how it cuts its responses.
ghost use Rattle.std.specs.Prelude.{◌≡◌, ℕ, ◌-◌, ◌≤◌, ◌<◌, ◌⊎◌, [], ◌∷◌, None, length, drop, MatchOption};
ghost use Rattle.t0_core.specs.declared.plan.Step.TheVariants.{All};
ghost use Rattle.t0_core.specs.Dialogue.{moves};
ghost use Rattle.t0_core.specs.Plan.{segments_of};
ghost use Rattle.t0_core.specs.CardSide.{Starts};

use std::alloc::{Allocator, Global};
use std::marker::Model;

/// What a procedure byte starts (ISO/IEC 7816-3, 10.3.3). Afterwards another procedure byte or SW1
/// follows.
#[derive(Clone, Copy, Debug, PartialEq, Eq, Hash)]
pub enum Step {
    /// `60`: nothing; the terminal waits.
    Null,
    /// INS xor `FF`: the next data character, if one is left.
    One,
    /// INS: all data characters that are left.
    All,
}

/// The procedure bytes that a card sends in a TPDU, and its cut: the most response bytes, 1 to 256,
/// that one `61XX` announces (profile). The card skips `One` and `All` if no data characters are
/// left, as after a refused header. If some are left after the last step, it sends one more `All`.
#[derive(Drop)]
pub struct Plan<A: Allocator = Global> {
    steps: Vec<Step, A>,
    cut: u16,
}

impl<A: Allocator> Model for Plan<A> {
    ghost use Rattle.std.specs.Prelude.{◌≤◌};
    ghost use Rattle.t0_core.specs.Plan.{Course};

    ghost Value = { Course };

    ghost view = { λ p. record { steps = p.steps.items; cut = p.cut } };

    ghost invariant = { λ p. (1 ≤ p.cut) × (p.cut ≤ 256) };
}

impl<A: Allocator> Plan<A> {
    ghost use Rattle.std.specs.Prelude.{◌≤◌, length, MatchOption, ◌<◌, ◌⊎◌};
    ghost use Rattle.t0_core.specs.Plan.{plain};

    /// Makes a plan of these steps and this cut. `None` if the cut is not 1 to 256.
    pub fn new(steps: Vec<Step, A>, cut: u16) -> Option<Plan<A>>
        ensures { MatchOption result ((cut ≡ 0) ⊎ (256 < cut))
            (λ plan. (1 ≤ cut) × (cut ≤ 256) × (plan ≡ record { steps = steps.items; cut = cut })) }
    {
        if matches!(cut, 1..=256) {
            Some(Plan { steps, cut })
        } else {
            None
        }
    }

    /// Makes a plan without steps and with the cut 256. It allocates nothing.
    pub(crate) fn plain(alloc: A) -> Plan<A>
        ensures { result ≡ plain }
    {
        Plan {
            steps: Vec::new(alloc),
            cut: 256,
        }
    }

    fn steps(&self) -> &[Step]
        ensures { result.now ≡ self.now.steps }
    {
        self.steps.as_slice()
    }

    fn cut(&self) -> u16
        ensures value { result ≡ self.now.cut }
        ensures range { (1 ≤ result) × (result ≤ 256) }
    {
        self.cut
    }
}

/// A cursor over a list of plans. Each TPDU takes the next plan, and after the last one a plan
/// without steps and with the cut 256. The cursor keeps the plan of the current TPDU.
#[derive(Drop)]
pub struct Plans<'a, A: Allocator = Global> {
    rest: &'a [Plan<A>],
    kept: Option<&'a Plan<A>>,
}

impl<'a, A: Allocator> Model for Plans<'a, A> {
    ghost use Rattle.std.specs.Option.{option_copied};
    ghost use Rattle.t0_core.specs.Plan.{Cursor};

    ghost Value = { Cursor };

    ghost view = { λ p. record { rest = p.rest.now; kept = option_copied p.kept } };
}

impl<'a, A: Allocator> Plans<'a, A> {
    ghost use Rattle.std.specs.Prelude.{None};
    ghost use Rattle.std.specs.Option.{option_copied};
    ghost use Rattle.t0_core.specs.Plan.{advanced, plan_kept};

    /// Makes a cursor before the first of these plans, which keeps no plan.
    pub fn over(plans: &'a [Plan<A>]) -> Plans<'a, A>
        ensures { result ≡ record { rest = plans.now; kept = None } }
    {
        Plans {
            rest: plans,
            kept: None,
        }
    }

    /// Makes a cursor that keeps the plan `kept`, before the first of `rest`. It is for an owner
    /// that stores the plans and makes a cursor for each call.
    pub fn keeping(kept: Option<&'a Plan<A>>, rest: &'a [Plan<A>]) -> Plans<'a, A>
        ensures { result ≡ record { rest = rest.now; kept = option_copied kept.entry } }
    {
        Plans { rest, kept }
    }

    /// Takes the next plan, if any, and returns its cut.
    pub(crate) fn advance(&mut self) -> u16
        ensures after { self.new ≡ advanced self.old }
        ensures cut { result ≡ (plan_kept self.new).cut }
        ensures range { (1 ≤ result) × (result ≤ 256) }
    {
        match self.rest.split_first() {
            None => {
                self.kept = None;
                256
            }
            Some((first, others)) => {
                self.kept = Some(first);
                self.rest = others;
                first.cut()
            }
        }
    }

    /// The steps of the plan that the cursor keeps, or none.
    pub(crate) fn steps(&self) -> &[Step]
        ensures { result.now ≡ (plan_kept self.now).steps }
    {
        match self.kept {
            None => &[],
            Some(plan) => plan.steps(),
        }
    }
}

/// Returns the next step to carry out if `left` data characters are left, and the number of steps
/// then done. A step that moves data is skipped if no data are left. After the last step, one `All`
/// is added if data are left.
pub(crate) fn next_step(steps: &[Step], done: usize, left: u16) -> Option<(Step, usize)>
    ensures { MatchOption result (segments_of (drop done steps.now) left ≡ [])
        (λ next. Starts next.0 left
        × (segments_of (drop done steps.now) left ≡ next.0 ∷ segments_of (drop next.1 steps.now)
        (left - moves next.0 left))
        × (((done < next.1) × (next.1 ≤ length steps.now))
        ⊎ ((next.0 ≡ All) × (length steps.now ≤ next.1)))) }
{
    let mut at = done;
    while at < steps.len() {
        let step = steps[at];
        at += 1;
        if left > 0 || matches!(step, Step::Null) {
            return Some((step, at));
        }
    }
    if left > 0 {
        Some((Step::All, at))
    } else {
        None
    }
}
