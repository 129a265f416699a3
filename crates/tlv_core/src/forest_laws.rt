//! Laws of lists of objects and their bytes, for proofs in the crates above. Each function is
//! empty: its contract is the law.

ghost use Rattle.std.specs.Prelude.{◌≡◌, ℕ, ◌≤◌, List, length};
ghost use Rattle.tlv_core.specs.Spelling.{Forest, Spells, encoding, IsWritable};

/// The same bytes never spell two lists of objects at one level.
pub fn one_forest()
    ensures { (f g : Forest) (bytes : List ℕ) (level : ℕ) →
        Spells f bytes level → Spells g bytes level → f ≡ g }
{}

/// The written bytes of objects that can be written spell those objects at level 1.
pub fn written_bytes_spell()
    ensures { (f : Forest) → IsWritable f → Spells f (encoding f) 1 }
{}

/// No bytes that spell the objects are shorter than the written ones.
pub fn written_bytes_are_fewest()
    ensures { (f : Forest) (bytes : List ℕ) (level : ℕ) →
        Spells f bytes level → length (encoding f) ≤ length bytes }
{}

/// A list of objects that some bytes spell at level 1 can be written.
pub fn spelled_objects_can_be_written()
    ensures { (f : Forest) (bytes : List ℕ) → Spells f bytes 1 → IsWritable f }
{}
