//! An answer to reset: parsed from bytes, made from parts, and written.

ghost use Rattle.std.specs.Prelude.{◌≡◌, ◌↔◌, ◌≤◌, length, Some, Err, Ok, IfOk, MatchResult};
ghost use Rattle.atr_core.specs.Answer as spec;
ghost use Rattle.atr_core.specs.Answer.{IsAnswer, characters};
ghost use Rattle.atr_core.specs.FirstFault.{first_fault};
ghost use Rattle.atr_core.specs.Reading.{IsWhole};
ghost use Rattle.atr_core.specs.Written.{Refuses};

use crate::build_fault::BuildFault;
use crate::characters::{
    LONGEST, MOST_GROUPS, MOST_HISTORICAL, character, check_end, group, historical,
    names_other_than_0, typed_groups,
};
use crate::convention::Convention;
use crate::fault::{AtrFault, AtrReason};
use crate::group::{Group, TypedGroup};
use crate::written::{are_in_order, size, written};
use arrayvec::ArrayVec;
use std::marker::Model;

/// An answer to reset (ISO/IEC 7816-3, 8.2). Contracts see it as what it says: convention, groups
/// and historical bytes.
///
/// `Atr::read` parses the bytes that a card sent. The methods return each value of the interface
/// bytes, with the standard's default if a byte is absent.
// Why arrays of full size: reading then needs no allocator, and the answer borrows nothing.
#[derive(Debug, Drop)]
pub struct Atr {
    convention: Convention,
    first: Group,
    others: ArrayVec<TypedGroup, MOST_GROUPS>,
    historical: ArrayVec<u8, MOST_HISTORICAL>,
}

impl Model for Atr {
    ghost use Rattle.atr_core.specs.Answer.{Answer, IsAnswer};

    ghost Value = { Answer };

    ghost view = { λ a. record {
      convention = a.convention;
      first = a.first;
      others = a.others.items;
      historical = a.historical.items;
    } };

    ghost invariant = { λ a. IsAnswer (record {
      convention = a.convention;
      first = a.first;
      others = a.others.items;
      historical = a.historical.items;
    }) };
}

impl Atr {
    /// Parses an answer to reset that takes up all of `bytes`.
    ///
    /// # Errors
    ///
    /// - `AtrFault`: the bytes are not an answer to reset. It is the leftmost fault. At one place
    ///   it is the first of `AtrReason`, and a wrong check byte counts only if nothing else is
    ///   wrong (profile).
    pub fn read(bytes: &[u8]) -> Result<Atr, AtrFault>
        ensures answer { IfOk result (λ a. IsAnswer a × (bytes.now ≡ characters a)) }
        ensures each { (a : spec.Answer) →
            IsAnswer a → bytes.now ≡ characters a → result ≡ Ok a }
        ensures fault { (fault : AtrFault) →
            (result ≡ Err fault) ↔ (first_fault bytes.now ≡ Some fault) }
    {
        whole(bytes)
    }

    /// Makes an answer of its parts, for a card that sends it. `first` is TA1, TB1 and TC1;
    /// `others` is each T that a TD names, with the TA, TB and TC after that TD. T0, the TDs and
    /// TCK follow from the parts.
    ///
    /// # Errors
    ///
    /// The first that holds:
    ///
    /// - `TooManyHistorical`: there are more than 15 historical bytes.
    /// - `OutOfOrder`: a T in `others` is above 15, below the T before it, or 15 in TD1.
    /// - `TooLong`: the answer would have more than 32 characters after TS.
    pub fn new(
        convention: Convention,
        first: Group,
        others: &[TypedGroup],
        historical: &[u8],
    ) -> Result<Atr, BuildFault>
        ensures { let parts : spec.Answer = record {
          convention = convention;
          first = first;
          others = others.now;
          historical = historical.now;
        } in MatchResult result (λ a. (a ≡ parts) × IsAnswer parts) (Refuses parts) }
    {
        let mut kept = ArrayVec::new();
        if kept.try_extend_from_slice(historical).is_err() {
            return Err(BuildFault::TooManyHistorical);
        }
        if !are_in_order(others) {
            return Err(BuildFault::OutOfOrder);
        }
        let mut groups = ArrayVec::new();
        if groups.try_extend_from_slice(others).is_err() {
            return Err(BuildFault::TooLong);
        }
        if size(first, others, historical) > LONGEST {
            return Err(BuildFault::TooLong);
        }
        Ok(Atr {
            convention,
            first,
            others: groups,
            historical: kept,
        })
    }

    /// Returns the characters of the answer, TS first: 2 to 33 bytes.
    pub fn write(&self) -> ArrayVec<u8, LONGEST>
        ensures { result.items ≡ characters self.now }
    {
        written(self.convention, self.first, &self.others, &self.historical)
    }

    /// The convention, which TS states.
    pub fn convention(&self) -> Convention
        ensures { result ≡ self.now.convention }
    {
        self.convention
    }

    /// The group TA1, TB1 and TC1.
    pub fn first(&self) -> Group
        ensures { result ≡ self.now.first }
    {
        self.first
    }

    /// The groups that TDs announce, in order: each T with the TA, TB and TC after its TD. At most
    /// 31.
    pub fn others(&self) -> &[TypedGroup]
        ensures groups { result.now ≡ self.now.others }
        ensures few { length result.now ≤ 31 }
    {
        &self.others
    }

    /// The historical bytes, at most 15.
    pub fn historical(&self) -> &[u8]
        ensures bytes { result.now ≡ self.now.historical }
        ensures few { length result.now ≤ 15 }
    {
        &self.historical
    }
}

/// Parses an answer to reset that takes up all of `bytes`.
fn whole(bytes: &[u8]) -> Result<Atr, AtrFault>
    ensures { MatchResult result (IsWhole bytes.now) (λ fault. first_fault bytes.now ≡ Some fault) }
{
    let ts = character(bytes, 0)?;
    let Some(convention) = Convention::of_ts(ts) else {
        return Err(AtrFault {
            place: 0,
            reason: AtrReason::NoTs,
        });
    };
    let t0 = character(bytes, 1)?;
    let (first, place) = group(bytes, 2, t0 / 16)?;
    let (others, end) = typed_groups(bytes, place, t0 / 16)?;
    let (historical, last) = historical(bytes, end, t0 % 16)?;
    check_end(bytes, last, names_other_than_0(&others))?;
    Ok(Atr {
        convention,
        first,
        others,
        historical,
    })
}
