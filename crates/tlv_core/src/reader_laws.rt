//! Laws of tags, lengths, faults and addresses, for proofs in the crates above. Each function is
//! empty: its contract is the law.

ghost use Rattle.std.specs.Prelude.{◌≡◌, ◌↔◌, ◌++◌, ℕ, List, [], Some, None};
ghost use Rattle.tlv_core.specs.Address.{NamesTag};
ghost use Rattle.tlv_core.specs.FirstFault.{IsFirstFault};
ghost use Rattle.tlv_core.specs.Length.{SpellsLength};
ghost use Rattle.tlv_core.specs.Items.{Item, with_first};
ghost use Rattle.tlv_core.specs.Object.{Object, ObjectList, GivesNext, IsItemOf};
ghost use Rattle.tlv_core.specs.Spelling.{AreObjects, Forest, Empty, Spells};
ghost use Rattle.tlv_core.specs.TagForm.{IsTag};
ghost use Rattle.tlv_core.specs.declared.fault.Reason.{Reason};

/// No tag is a prefix of another.
pub fn no_tag_starts_another()
    ensures { (tag rest : List ℕ) → IsTag tag → IsTag (tag ++ rest) → rest ≡ [] }
{}

/// No spelling of a length is a prefix of another, and none spells two lengths.
pub fn no_length_starts_another()
    ensures { (size rest : List ℕ) (n m : ℕ) → SpellsLength size n →
        SpellsLength (size ++ rest) m → (rest ≡ []) × (n ≡ m) }
{}

/// Bytes have a first fault at a level exactly if they are not a list of objects of that level.
pub fn a_fault_where_no_objects()
    ensures { (bytes : List ℕ) (level : ℕ) →
        ((place : ℕ) × (reason : Reason) × IsFirstFault bytes level place reason)
        ↔ (AreObjects bytes level → ⊥) }
{}

/// Bytes have at most one first fault at a level.
pub fn one_first_fault()
    ensures { (bytes : List ℕ) (level p q : ℕ) (r s : Reason) →
        IsFirstFault bytes level p r → IsFirstFault bytes level q s → (p ≡ q) × (r ≡ s) }
{}

/// The next object of a list that spells a forest is the forest's first object, and the rest of the
/// list spells the others. A list has no next object only if the forest is empty.
pub fn next_is_the_first_object()
    ensures some { (list left : ObjectList) (object : Object) (forest : Forest) →
        Spells forest list.bytes list.level → GivesNext list (Some object) left →
        ((item : Item) × (others : Forest) × (forest ≡ with_first item others)
        × IsItemOf item object × Spells others left.bytes left.level) }
    ensures none { (list left : ObjectList) (forest : Forest) →
        Spells forest list.bytes list.level → GivesNext list None left → forest ≡ Empty }
{}

/// A tag has at most one address in P1-P2.
pub fn one_address_of_a_tag()
    ensures { (tag : List ℕ) (p1 p2 q1 q2 : ℕ) →
        NamesTag tag p1 p2 → NamesTag tag q1 q2 → (p1 ≡ q1) × (p2 ≡ q2) }
{}

/// An address in P1-P2 names at most one tag.
pub fn one_tag_at_an_address()
    ensures { (tag other : List ℕ) (p1 p2 : ℕ) →
        NamesTag tag p1 p2 → NamesTag other p1 p2 → tag ≡ other }
{}
