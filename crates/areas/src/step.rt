// One step of a merge: a row of the sum, if it gives one.
ghost use Rattle.std.specs.Prelude.{◌≡◌, ◌<◌, IfOk, None as Nothing, Err, MatchResult, nat_lt};
ghost use Rattle.areas.specs.Merging.{remaining, unread, Goes, prepended};

use crate::product::{nonzero, product};
use refusals::Refusal;
use rings::Ring;
use rows::Row;

// A merge under way: what is left of the two tables, the factor of the second, if there is one, and the next row of the second times the factor, once it is known.
#[derive(Drop)]
pub(crate) struct Merge<'a, K> {
    pub(crate) left: &'a [Row<K>],
    pub(crate) right: &'a [Row<K>],
    pub(crate) factor: Option<Row<K>>,
    pub(crate) head: Option<Row<K>>,
}

impl<K: Ring> Merge<'_, K> {
    // Whether a row is left.
    pub(crate) fn is_unfinished(&self) -> bool
        ensures { result ≡ nat_lt 0 (unread self.now) }
    {
        !self.left.is_empty() || !self.right.is_empty() || self.head.is_some()
    }

    // The step where the next row of the second table is not known: it is found, or where there is none, a row of the first table is given.
    fn find_head(&mut self) -> Result<Option<Row<K>>, Refusal>
        requires none { self.old.head ≡ Nothing }
        requires some { 0 < unread self.old }
        ensures next { MatchResult result (λ o. remaining K.kind self.old ≡ prepended o (remaining K.kind self.new)) (λ e. remaining K.kind self.old ≡ Err e) }
        ensures goes { IfOk result (λ o. Goes self.old o self.new) }
    {
        if let Some((b, rest)) = self.right.split_first() {
            self.right = rest;
            self.head = product(*b, self.factor)?;
            return Ok(None);
        }
        let Some((a, rest)) = self.left.split_first() else {
            return Ok(None);
        };
        self.left = rest;
        Ok(Some(*a))
    }

    // One step of a merge that has a row left.
    pub(crate) fn step(&mut self) -> Result<Option<Row<K>>, Refusal>
        requires some { 0 < unread self.old }
        ensures next { MatchResult result (λ o. remaining K.kind self.old ≡ prepended o (remaining K.kind self.new)) (λ e. remaining K.kind self.old ≡ Err e) }
        ensures goes { IfOk result (λ o. Goes self.old o self.new) }
    {
        let Some(b) = self.head else {
            return self.find_head();
        };
        let Some(a) = self.left.first() else {
            self.head = None;
            return Ok(Some(b));
        };
        // two tests in place of a match on `cmp`, with which a merge takes half as long again
        if a.key > b.key {
            self.left = &self.left[1..];
            return Ok(Some(*a));
        }
        self.head = None;
        if b.key > a.key {
            return Ok(Some(b));
        }
        self.left = &self.left[1..];
        let coefficient = a.coefficient.plus(b.coefficient)?;
        Ok(nonzero(a.key, coefficient))
    }
}
