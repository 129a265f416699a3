//! Reads a plan of C: letters for its steps, and its cut.
ghost use Rattle.std.specs.Prelude.{◌≡◌, ◌<◌, ◌↔◌, IsTrue, IfOk, IfErr, map};
ghost use Rattle.card_c.specs.PlanLetters.{AreSteps, IsSpelt, IsRefused, letter_of, plan_limit};

use crate::code;
use std::alloc::{AllocError, Global};
use t0_core::{Plan, Step};

/// The most plans that wait for later TPDUs.
const PLAN_LIMIT: usize = 1_048_576;

/// Reads the plan with these letters, `n`, `o` and `a`, and this cut, 1 to 256. `waiting` is the
/// number of plans before it.
pub fn plan_of(alloc: Global, letters: &[u8], cut: u16, waiting: usize) -> Result<Plan, i32>
    ensures spelt { IfOk result (λ plan. IsSpelt letters.now cut plan) }
    ensures fits { IfOk result (λ _. waiting < plan_limit) }
    ensures refused { IfErr result (λ code. IsRefused letters.now cut waiting code) }
{
    if !are_steps(letters) || !matches!(cut, 1..=256) {
        return Err(code::ARGUMENT);
    }
    if waiting >= PLAN_LIMIT {
        return Err(code::PLANS);
    }
    match steps_of(alloc, letters) {
        Ok(steps) => Plan::new(steps, cut).ok_or(code::ARGUMENT),
        Err(_) => Err(code::MEMORY),
    }
}

/// Returns whether each byte is the letter of a step.
fn are_steps(letters: &[u8]) -> bool
    ensures { IsTrue result ↔ AreSteps letters.now }
{
    for letter in letters {
        if !matches!(letter, b'n' | b'o' | b'a') {
            return false;
        }
    }
    true
}

/// Returns the steps of these letters, or `AllocError` if memory runs out.
fn steps_of(alloc: Global, letters: &[u8]) -> Result<Vec<Step>, AllocError>
    requires { AreSteps letters.now }
    ensures { IfOk result (λ steps. letters.now ≡ map letter_of steps.items) }
{
    let mut steps = Vec::with_capacity(alloc, letters.len())?;
    for letter in letters {
        let step = match letter {
            b'n' => Step::Null,
            b'o' => Step::One,
            b'a' => Step::All,
            _ => unreachable!(),
        };
        steps.push(step).map_err(AllocError::from)?;
    }
    Ok(steps)
}
