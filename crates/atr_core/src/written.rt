//! Writes the characters of an answer.

ghost use Rattle.std.specs.Prelude.{◌≡◌, ◌↔◌, ◌≤◌, ◌<◌, ◌+◌, ◌*◌, ◌∷◌, [], ◌++◌, length, None, IsTrue};
ghost use Rattle.atr_core.specs.Answer.{AreInOrder, IsAnswer, before, bit, characters, group_before};
ghost use Rattle.atr_core.specs.Written.{y_of, group_size, size_of};

use crate::characters::{LONGEST, may_follow, names_other_than_0, xor_of};
use crate::convention::Convention;
use crate::group::{Group, TypedGroup};
use arrayvec::ArrayVec;

/// Returns all characters of the answer with these parts.
pub(crate) fn written(
    convention: Convention,
    first: Group,
    others: &[TypedGroup],
    historical: &[u8],
) -> ArrayVec<u8, LONGEST>
    requires { IsAnswer (record {
      convention = convention;
      first = first;
      others = others.now;
      historical = historical.now;
    }) }
    ensures { result.items ≡ characters (record {
      convention = convention;
      first = first;
      others = others.now;
      historical = historical.now;
    }) }
{
    let mut out = ArrayVec::new();
    out.push(convention.ts());
    let mut low = historical.len() as u8;
    let mut group = first;
    // For the proof: the labels name the goals of both loops.
    'groups: for named in others {
        push_indicator(&mut out, low, group, 8);
        low = named.t;
        group = named.group;
    }
    push_indicator(&mut out, low, group, 0);
    'historical: for byte in historical {
        out.push(*byte);
    }
    if names_other_than_0(others) {
        let check = xor_of(&out[1..]);
        out.push(check);
    }
    out
}

/// Appends an indicator (T0 or a TD) and its group. `td` is 8 if the indicator announces a TD, else
/// 0.
fn push_indicator(out: &mut ArrayVec<u8, LONGEST>, low: u8, group: Group, td: u8)
    requires low { low < 16 }
    requires td { td ≤ 8 }
    requires room { length out.old.items + 1 + group_size group ≤ 33 }
    ensures { out.new.items ≡ out.old.items ++ (16 * y_of group td + low) ∷ group_before group [] }
{
    let ta = u8::from(group.ta.is_some());
    let tb = u8::from(group.tb.is_some());
    let tc = u8::from(group.tc.is_some());
    out.push(16 * (ta + 2 * tb + 4 * tc + td) + low);
    push_maybe(out, group.ta);
    push_maybe(out, group.tb);
    push_maybe(out, group.tc);
}

/// Appends the character if it is present.
fn push_maybe(out: &mut ArrayVec<u8, LONGEST>, byte: Option<u8>)
    requires { length out.old.items + bit byte ≤ 33 }
    ensures { out.new.items ≡ out.old.items ++ before byte [] }
{
    if let Some(byte) = byte {
        out.push(byte);
    }
}

/// The number of characters of the answer with these parts. `others` has at most 31 items.
pub(crate) fn size(first: Group, others: &[TypedGroup], historical: &[u8]) -> usize
    requires few { length others.now ≤ 31 }
    requires few_historical { length historical.now ≤ 15 }
    ensures { result ≡ size_of first others.now historical.now }
{
    let mut size = 2 + group_size(first) + historical.len();
    for named in others {
        size += 1 + group_size(named.group);
    }
    size + usize::from(names_other_than_0(others))
}

/// The number of characters that are present in the group.
fn group_size(group: Group) -> usize
    ensures { result ≡ group_size group }
{
    let ta = usize::from(group.ta.is_some());
    let tb = usize::from(group.tb.is_some());
    let tc = usize::from(group.tc.is_some());
    ta + tb + tc
}

/// Whether each T is at most 15 and may follow the one before it.
pub(crate) fn are_in_order(others: &[TypedGroup]) -> bool
    ensures { IsTrue result ↔ AreInOrder None others.now }
{
    let mut last = None;
    for named in others {
        if named.t > 15 || !may_follow(last, named.t) {
            return false;
        }
        last = Some(named.t);
    }
    true
}
