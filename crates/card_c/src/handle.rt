//! What all handles of C have in common: each holds one value in a box, or nothing.
ghost use Rattle.std.specs.Prelude.{◌≡◌, Option, Some, None, is_some};
ghost use Rattle.std.specs.Option.{option_map};

use std::alloc::Global;

/// A handle of C. It is not generic, since only a struct without type parameters goes to C.
pub trait Handle {
    /// What it holds.
    type Content: Drop;

    /// What it holds now, if anything.
    ghost content: { Self → Option Self.Content };

    /// Whether it holds something.
    fn is_live(&self) -> bool
        ensures { result ≡ is_some (content self.now) };

    /// Takes out what it holds, and leaves it empty. `None` if it is empty.
    fn take_out(&mut self, alloc: Global) -> Option<Box<Self::Content>>
        ensures empty { content self.new ≡ None }
        ensures value { option_map (λ held. held.value) result ≡ content self.old };

    /// Puts a value into an empty handle.
    fn put(&mut self, value: Box<Self::Content>)
        requires { content self.old ≡ None }
        ensures { content self.new ≡ Some value.value };
}

/// Evaluates an expression on what a handle holds, under the name `side`, and returns its code. The
/// expression may write to what the caller was lent. A function that took a closure would cost the
/// prover two more functions for each export.
macro_rules! on {
    ($alloc:ident, $handle:ident, $side:ident => $call:expr) => {{
        let Some(mut $side) = $handle.take_out($alloc) else {
            return code::EMPTY;
        };
        let answer = $call;
        $handle.put($side);
        answer
    }};
}

pub(crate) use on;
