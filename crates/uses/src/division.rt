// Whether a list of calls may divide: over a domain, or not at all.
ghost use Rattle.std.specs.Prelude.{◌≡◌, ◌↔◌, ℕ, Bool, true, false, List, IsSome, refl};
ghost use Rattle.std.proofs.Common.{subst, sym};
ghost use Rattle.formats.specs.Drafts.{Sound};
ghost use Rattle.formats.specs.declared.variable.Variable.{Variable as VariableOf};
ghost use Rattle.areas.specs.Areas.{answered};
ghost use Rattle.arithmetic.specs.Dividing.{Over};
ghost use Rattle.sheets.specs.States.{kept};
ghost use Rattle.sheets.specs.Desks.{Blank};
ghost use Rattle.sheets.specs.Sheets.{state, rows_lent};
ghost use Rattle.conduct.specs.Uses.{Promise};
ghost use Rattle.conduct.proofs.Settled.{over_domains, over_rings};
ghost use Rattle.uses.specs.Dividing.{rows_of, from_none};

use refusals::Refusal;
use rings::{Domain, Ring};
use sheets::Sheet;

// The leave to divide that a domain gives.
#[derive(Clone, Copy)]
pub struct Division;

// The leave of a kind without division: there is none.
#[derive(Clone, Copy)]
pub enum NoDivision {}

// The leave that a division on a sheet of the kind K has to carry.
pub trait Divides<K: Ring>: Copy {
    // whether there is one
    ghost may: { Bool };

    // whether these are the quotients of coefficients; any are where nothing divides
    ghost divides_by: { Over K → Type 0 };

    fn leave() -> Option<Self>
        ensures some { IsSome result ↔ (may ≡ true) };

    // Makes the quotient of two places the rows of a place, where there is a leave; else it is no operation.
    fn divide(
        sheet: &mut Sheet<'_, K>,
        place: usize,
        dividend: usize,
        divisor: usize,
    ) -> Result<(), Refusal>
        ensures answer { (over : Over K) → divides_by over → result ≡ answered (rows_of K.kind over may (state sheet.old) place dividend divisor) }
        ensures leaves { (over : Over K) → divides_by over → state sheet.new ≡ kept (state sheet.old) place (rows_of K.kind over may (state sheet.old) place dividend divisor) }
        ensures blank { Blank sheet.old.desk → Blank sheet.new.desk }
        ensures long { rows_lent sheet.new ≡ rows_lent sheet.old };

    // There is a leave only where calls may divide.
    ghost there: { Self → may ≡ true };

    // The promise over whole uses. Where calls divide, no two nonzero members may have the product zero.
    ghost promised: { (over : Over K) (vs : List VariableOf) → divides_by over → (may ≡ true → K.whole ≡ true) → Sound vs → Promise K.kind over vs may };
}

impl<K: Ring> Divides<K> for NoDivision {
    ghost may = { false };

    ghost divides_by = { λ over. Unit {0} };

    fn leave() -> Option<NoDivision> {
        None
    }

    fn divide(
        _sheet: &mut Sheet<'_, K>,
        _place: usize,
        _dividend: usize,
        _divisor: usize,
    ) -> Result<(), Refusal> {
        Err(Refusal::Operation)
    }

    ghost there = { from_none };

    ghost promised = { λ over vs any met sound. over_rings K.kind K.ring K.values K.writing over vs sound };
}

impl<K: Domain> Divides<K> for Division {
    ghost may = { true };

    ghost divides_by = { λ over. over ≡ K.quotient };

    fn leave() -> Option<Division> {
        Some(Division)
    }

    fn divide(
        sheet: &mut Sheet<'_, K>,
        place: usize,
        dividend: usize,
        divisor: usize,
    ) -> Result<(), Refusal> {
        sheet.divide(place, dividend, divisor)
    }

    ghost there = { λ leave. refl };

    ghost promised = { λ over vs is met sound. subst (λ o. Promise K.Ring.kind o vs true) (sym is) (over_domains K.Ring.kind K.Ring.ring K.Ring.values K.Ring.writing K.quotient vs sound K.division (K.Ring.wholeness (met refl))) };
}
