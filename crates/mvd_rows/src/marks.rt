//! The keys of kept rows.
use mvd_docs::Term;
use mvd_dots::{Dot, Refusal};
use mvd_keys::Key;
use std::alloc::Global;
use std::cmp::Ordering;

/// A key and the dot of one of its siblings.
#[derive(Drop, PartialEq, Eq, PartialOrd, Ord)]
pub struct Spot {
    pub key: Key,
    pub dot: Dot,
}

/// A term and a place under it; without a place it stands before each place of the term.
#[derive(Drop)]
pub struct Mark {
    pub term: Term,
    pub spot: Option<Spot>,
}

/// A whole number beside the group that it stands in.
#[derive(Drop)]
pub struct Tally {
    pub term: Term,
    pub whole: i64,
}

impl Spot {
    ghost use Rattle.mvd_dots.specs.Answer.{IsAnswer};
    ghost use Rattle.std.specs.Prelude.{Ok};

    pub(crate) fn copy(&self, alloc: Global) -> Result<Spot, Refusal>
        ensures { IsAnswer result (Ok self.now) }
    {
        let key = self.key.copy(alloc)?;
        Ok(Spot { key, dot: self.dot })
    }
}

impl Mark {
    ghost use Rattle.mvd_dots.specs.Answer.{IsAnswer};
    ghost use Rattle.std.specs.Prelude.{Ok};

    pub(crate) fn copy(&self, alloc: Global) -> Result<Mark, Refusal>
        ensures { IsAnswer result (Ok self.now) }
    {
        let term = self.term.copy(alloc)?;
        let spot = match &self.spot {
            Some(spot) => Some(spot.copy(alloc)?),
            None => None,
        };
        Ok(Mark { term, spot })
    }
}

impl Ord for Mark {
    ghost use Rattle.std.proofs.Common.{rules};
    ghost use Rattle.std.specs.Cmp.Rules.{comparing};
    ghost use Rattle.mvd_rows.specs.Marks.{mark_cmp, marks_total};

    ghost cmp = { mark_cmp };

    ghost total = { marks_total };

    ghost matches_partial_cmp = { Prim.search (comparing, rules) depth 12 };

    ghost matches_eq = { Prim.search (comparing, rules) depth 12 };

    fn cmp(&self, other: &Mark) -> Ordering {
        self.term.cmp(&other.term).then(self.spot.cmp(&other.spot))
    }
}

impl PartialOrd for Mark {
    ghost use Rattle.std.specs.Cmp.{partial_order_from_total};
    ghost use Rattle.std.specs.Ordering.{as_partial_cmp};
    ghost use Rattle.mvd_rows.specs.Marks.{mark_cmp, marks_total};

    ghost partial_cmp = { as_partial_cmp mark_cmp };

    ghost laws = { partial_order_from_total marks_total };

    fn partial_cmp(&self, other: &Mark) -> Option<Ordering> {
        Some(self.cmp(other))
    }
}

impl PartialEq for Mark {
    ghost use Rattle.std.specs.Cmp.{eq_by_cmp_equiv, partial_equiv_from_equiv};
    ghost use Rattle.std.specs.Ordering.{eq_by_cmp};
    ghost use Rattle.mvd_rows.specs.Marks.{mark_cmp, marks_total};

    ghost eq = { eq_by_cmp mark_cmp };

    ghost laws = { partial_equiv_from_equiv (eq_by_cmp_equiv marks_total) };

    fn eq(&self, other: &Mark) -> bool {
        self.cmp(other).is_eq()
    }
}

impl Eq for Mark {
    ghost use Rattle.std.specs.Cmp.{eq_by_cmp_equiv};
    ghost use Rattle.mvd_rows.specs.Marks.{marks_total};

    ghost laws = { eq_by_cmp_equiv marks_total };
}

impl Ord for Tally {
    ghost use Rattle.std.proofs.Common.{rules};
    ghost use Rattle.std.specs.Cmp.Rules.{comparing};
    ghost use Rattle.mvd_rows.specs.Marks.{tally_cmp, tallies_total};

    ghost cmp = { tally_cmp };

    ghost total = { tallies_total };

    ghost matches_partial_cmp = { Prim.search (comparing, rules) depth 12 };

    ghost matches_eq = { Prim.search (comparing, rules) depth 12 };

    fn cmp(&self, other: &Tally) -> Ordering {
        self.term
            .cmp(&other.term)
            .then(self.whole.cmp(&other.whole))
    }
}

impl PartialOrd for Tally {
    ghost use Rattle.std.proofs.Common.{rules};
    ghost use Rattle.std.specs.Cmp.{partial_order_from_own_ties};
    ghost use Rattle.std.specs.Cmp.Rules.{comparing};
    ghost use Rattle.std.specs.Ordering.{as_partial_cmp};
    ghost use Rattle.mvd_rows.specs.Marks.{tally_cmp};

    ghost partial_cmp = { as_partial_cmp tally_cmp };

    ghost laws = { partial_order_from_own_ties (Prim.search (comparing, rules) depth 12)
        (Prim.search (comparing, rules) depth 12) };

    fn partial_cmp(&self, other: &Tally) -> Option<Ordering> {
        Some(self.cmp(other))
    }
}

impl PartialEq for Tally {
    ghost use Rattle.std.proofs.Common.{rules};
    ghost use Rattle.std.specs.Cmp.Rules.{comparing};
    ghost use Rattle.std.specs.Ordering.{eq_by_cmp};
    ghost use Rattle.mvd_rows.specs.Marks.{tally_cmp};

    ghost eq = { eq_by_cmp tally_cmp };

    ghost laws = { Prim.search (comparing, rules) depth 12 };

    fn eq(&self, other: &Tally) -> bool {
        self.cmp(other).is_eq()
    }
}

impl Eq for Tally {
    ghost use Rattle.std.specs.Cmp.{eq_by_cmp_equiv};
    ghost use Rattle.mvd_rows.specs.Marks.{tallies_total};

    ghost laws = { eq_by_cmp_equiv tallies_total };
}
