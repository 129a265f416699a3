//! Laws of this crate's definitions, for proofs in the crates above. Each function is empty: its
//! contract is the law.
ghost use Rattle.std.specs.Prelude.{◌≡◌, ◌<◌, ◌≤◌, ◌↔◌, ℕ, List, length, map, All, Some, true};
ghost use Rattle.std.specs.List.{concat};
ghost use Rattle.apdu_core.specs.declared.header.Header.{Header};
ghost use Rattle.apdu_core.specs.HeaderBytes.{ins_is_valid};
ghost use Rattle.apdu_core.specs.CommandBytes.{Command, HasSizes, command_bytes};
ghost use Rattle.apdu_core.specs.Chaining.{IsPieces, IsLast, chain_commands, ChainState, idle};
ghost use Rattle.apdu_core.specs.Laws.{MoreInAllButLast, IsLink, AreAdded};

/// The same bytes are never those of two commands, whatever their INS. The data must be at most 255
/// bytes, and Le 1 to 256.
pub fn bytes_are_of_one_command()
    ensures { (c d : Command) → HasSizes c.content c.le → HasSizes d.content d.le →
        command_bytes c ≡ command_bytes d → c ≡ d }
{}

/// Each value is cut into pieces in exactly one way, and the pieces concatenate to the value.
pub fn a_value_has_its_pieces()
    ensures exist { (value : List ℕ) → (p : List (List ℕ)) × IsPieces value p }
    ensures determined { (value : List ℕ) (p q : List (List ℕ)) →
        IsPieces value p → IsPieces value q → p ≡ q }
    ensures concatenate { (value : List ℕ) (p : List (List ℕ)) →
        IsPieces value p → concat p ≡ value }
{}

/// The commands of a chain carry the value. If bit 5 of CLA is clear in the chain's header, it is
/// set in all commands except the last. If INS is valid too, and CLA is a byte, each is a command
/// without Le, whose header is the chain's apart from that bit.
pub fn the_commands_of_a_chain()
    ensures concatenate { (header : Header) (value : List ℕ) (p : List (List ℕ)) →
        IsPieces value p → concat (map (λ c. c.content) (chain_commands header p)) ≡ value }
    ensures more { (header : Header) (value : List ℕ) (p : List (List ℕ)) → IsPieces value p →
        IsLast header → MoreInAllButLast (chain_commands header p) }
    ensures links { (header : Header) (value : List ℕ) (p : List (List ℕ)) → IsPieces value p →
        IsLast header → header.cla < 256 → ins_is_valid header.ins ≡ true →
        All (IsLink header) (chain_commands header p) }
{}

/// An idle chain accepts all commands of a value, in turn, exactly if the value keeps to the limit.
/// It then holds that value, and is pending. In the chain's header CLA must be a byte, with bit 5
/// clear.
pub fn a_chain_gathers_the_value()
    ensures { (header : Header) (value : List ℕ) (p : List (List ℕ)) (limit : ℕ)
        (after : ChainState) → IsPieces value p → IsLast header → header.cla < 256 →
        AreAdded (idle limit) (chain_commands header p) after ↔ ((length value ≤ limit)
        × (after ≡ record { bytes = value; limit = limit; pending = Some header })) }
{}
