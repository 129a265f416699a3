//! Laws of answers to reset and conventions, for proofs in the crates above. Each function is
//! empty: its contract is the law.

ghost use Rattle.std.specs.Prelude.{◌≡◌, ◌<◌, ℕ, None};
ghost use Rattle.atr_core.specs.Answer.{Answer, IsAnswer, characters};
ghost use Rattle.atr_core.specs.Conventions.{as_sent};
ghost use Rattle.atr_core.specs.FirstFault.{first_fault};
ghost use Rattle.atr_core.specs.declared.convention.Convention.{Convention};

/// The same bytes are never the characters of two answers. The characters of an answer have no
/// fault.
pub fn one_reading()
    ensures one { (a b : Answer) → IsAnswer a → IsAnswer b → characters a ≡ characters b → a ≡ b }
    ensures no_fault { (a : Answer) → IsAnswer a → first_fault (characters a) ≡ None }
{}

/// Converting a byte twice by one convention returns the byte.
pub fn turned_twice_is_the_byte()
    ensures { (c : Convention) (byte : ℕ) → byte < 256 → as_sent c (as_sent c byte) ≡ byte }
{}
