//! Laws of dialogues and their fronts, for proofs in the crates above. Each function is empty: its
//! contract is the law.

ghost use Rattle.std.specs.Prelude.{◌≡◌, ◌<◌, ◌≤◌, ◌++◌, ◌∷◌, [], ℕ, List, length, Some};
ghost use Rattle.std.specs.List.{AllByRecursion, flat_map};
ghost use Rattle.t0_core.specs.Character.{Character};
ghost use Rattle.t0_core.specs.Dialogue.{Dialogue, IsDialogue, characters};
ghost use Rattle.t0_core.specs.declared.end.End.TheVariants.{Terminal, Card};
ghost use Rattle.t0_core.specs.declared.host_end.HostTurn.TheVariants.{Sends, Listens};
ghost use Rattle.t0_core.specs.Room.{Room};
ghost use Rattle.t0_core.specs.HostSide.{Hosting, HostStandsAt, HasRoom, IsOpenedBy, IsRequest, turn_of, fault_of};
ghost use Rattle.t0_core.specs.declared.heard.Heard.{Heard};
ghost use Rattle.t0_core.specs.Plan.{Course, FollowInTurn};
ghost use Rattle.t0_core.specs.TapSide.{IsRead, afresh};
ghost use Rattle.t0_core.specs.TpduBytes.{asked_by, asked_in, tpdu_bytes};
ghost use Rattle.t0_core.specs.TapLine.{HearsInTurn, AreTold};
ghost use Rattle.t0_core.specs.OwnLaws.{BeginsOwn};
ghost use Rattle.t0_core.specs.History.{Item, IsItem, IsPart, IsByteEvent, AreAlikeInTurn, events_of, passed};
ghost use Rattle.t0_core.specs.Front.{Front, IsFront, GoesOn, Ends, GoesThrough, fresh, front_characters};

/// A front that continues with a character becomes another front, longer by exactly that character.
pub fn goes_on_by_one()
    ensures { (front new : Front) (c : Character) → IsFront front → GoesOn front c new →
        IsFront new × (front_characters new ≡ front_characters front ++ c ∷ []) }
{}

/// A front that ends with a character, SW2, becomes a dialogue: its characters are those of the
/// front and SW2.
pub fn ends_as_dialogue()
    ensures { (front : Front) (c : Character) (d : Dialogue) → IsFront front → Ends front c d →
        IsDialogue d × (characters d ≡ front_characters front ++ c ∷ []) }
{}

/// Each front begins some dialogue, and is not the whole of it.
pub fn a_front_begins_a_dialogue()
    ensures { (front : Front) → IsFront front → (d : Dialogue) × (c : Character)
        × (rest : List Character)
        × IsDialogue d × (characters d ≡ front_characters front ++ c ∷ rest) }
{}

/// If a terminal's end is at a front, some dialogue that this end opened, with its own data, begins
/// with that front and is longer.
pub fn a_front_begins_its_own_dialogue()
    ensures { (host : Hosting) (front : Front) → IsRequest host → HostStandsAt host front
        → IsFront front →
        BeginsOwn host front }
{}

/// Each dialogue begins with no characters, continues with its own, front by front, and ends with
/// the last of them.
pub fn a_dialogue_is_gone_through()
    ensures { (d : Dialogue) → IsDialogue d → GoesThrough fresh (characters d) d }
{}

/// The characters determine what a terminal's end does. Take an end at a front, and a dialogue that
/// it opened and that continues from there. If the next character is the terminal's, the end sends
/// exactly that one. If it is the card's, the end listens. It takes the character without an error
/// if the gather has room for the data still to come. No front of the end begins with a whole
/// dialogue that it opened.
pub fn the_next_character_is_settled()
    ensures sent { (host : Hosting) (front : Front) (d : Dialogue) (byte : ℕ)
        (rest : List Character) → IsRequest host → HostStandsAt host front → IsFront front →
        IsDialogue d → IsOpenedBy host d.body →
        characters d ≡ front_characters front ++ (Terminal, byte) ∷ rest →
        turn_of host ≡ Sends byte }
    ensures taken { (host : Hosting) (front : Front) (d : Dialogue) (byte : ℕ)
        (rest : List Character) (gather : Room) → IsRequest host → HostStandsAt host front →
        IsFront front → IsDialogue d → IsOpenedBy host d.body →
        characters d ≡ front_characters front ++ (Card, byte) ∷ rest →
        (turn_of host ≡ Listens) × (HasRoom gather front d → fault_of host gather byte ≡ None) }
    ensures unfinished { (host : Hosting) (front : Front) (d : Dialogue) (rest : List Character) →
        IsRequest host → HostStandsAt host front → IsFront front → IsDialogue d →
        IsOpenedBy host d.body → characters d ++ rest ≡ front_characters front → ⊥ }
{}

/// The bytes that a terminal's end writes for a whole TPDU are read as the TPDU that it opened. If
/// P3 is a byte, they are 4 to 260 bytes. So no end guesses the direction of data.
pub fn a_whole_tpdu_is_read_as_it_is_written()
    ensures read { (host : Hosting) → IsRequest host →
        asked_in (tpdu_bytes (asked_by host)) ≡ Some (asked_by host) }
    ensures few { (host : Hosting) → IsRequest host → host.p3 < 256 →
        let bytes = tpdu_bytes (asked_by host) in (4 ≤ length bytes) × (length bytes ≤ 260) }
{}

/// Of two dialogues with data in the same direction, neither begins the other: if both begin one
/// list of characters, they are equal. INS of the first must be a byte.
pub fn dialogues_opened_alike_have_one_cutting()
    ensures { (d e : Dialogue) (after_d after_e : List Character) →
        d.body.header.ins < 256 → IsDialogue d → IsDialogue e →
        d.body.direction ≡ e.body.direction → characters d ++ after_d ≡ characters e ++ after_e →
        (d ≡ e) × (after_d ≡ after_e) }
{}

/// There is at most one way to cut what happened at a card's end into whole dialogues, parts that a
/// reset cut off, and the part in progress. Two cuttings of equal events have equal parts in
/// progress. Their items are equal too, except for a direction that nobody saw because no data
/// moved. The characters must be bytes, and each dialogue must follow some plan or be cut off from
/// one that does.
pub fn events_have_one_cutting()
    ensures { (items others : List Item) (part other : List Character) →
        AllByRecursion IsItem items → AllByRecursion IsItem others → IsPart part → IsPart other →
        AllByRecursion IsByteEvent (flat_map events_of items ++ passed part) →
        flat_map events_of items ++ passed part ≡ flat_map events_of others ++ passed other →
        AreAlikeInTurn items others × (part ≡ other) }
{}

/// Take dialogues, one after another, and all such that a tap can read them. A tap that is between
/// dialogues takes all their characters, reports each of them, and is between dialogues again. The
/// card and the terminal may be any. The characters must be bytes.
pub fn a_tap_takes_the_dialogues_that_it_reads()
    ensures { (dialogues : List Dialogue) →
        AllByRecursion IsDialogue dialogues → AllByRecursion (λ d. IsRead d.body) dialogues →
        AllByRecursion IsByteEvent (passed (flat_map characters dialogues)) →
        (told : List Heard) × HearsInTurn afresh (flat_map characters dialogues) told afresh
        × AreTold told dialogues }
{}

/// A tap can read each dialogue that follows a plan, whatever the plan. So from between dialogues
/// it takes such dialogues, one after another, and reports each of them. The characters must be
/// bytes.
pub fn a_tap_takes_dialogues_under_plans()
    ensures { (dialogues : List Dialogue) (plans : List Course) →
        AllByRecursion IsDialogue dialogues → FollowInTurn dialogues plans →
        AllByRecursion IsByteEvent (passed (flat_map characters dialogues)) →
        (told : List Heard) × HearsInTurn afresh (flat_map characters dialogues) told afresh
        × AreTold told dialogues }
{}
