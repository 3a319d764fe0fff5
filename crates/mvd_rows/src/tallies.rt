//! How often each whole number stands in each group.
ghost use Rattle.std.specs.Prelude.{◌≡◌, ◌+◌, ◌-◌, ◌<◌, ◌^◌, Some, OnOk, IfOk, IfErr, unwrap_or};
ghost use Rattle.std.specs.BTreeMap as tree;
ghost use Rattle.mvd_dots.specs.declared.refusals.Refusal.TheVariants.{Memory};
ghost use Rattle.mvd_rows.specs.Becomes.{Becomes};
ghost use Rattle.mvd_rows.specs.Counted.{Within};
ghost use Rattle.mvd_rows.specs.Marks.{tally_cmp};
ghost use Rattle.mvd_rows.specs.Stands.{unless_none, AreEnds};

use crate::marks::Tally;
use crate::meters::Meter;
use crate::ordered_map::Kept;
use mvd_docs::Term;
use mvd_dots::Refusal;
use std::alloc::{AllocError, Global};

/// How often each whole number stands in each group.
#[derive(Drop)]
pub struct Tallies {
    pub(crate) kept: Kept<Tally, u64>,
}

impl Tallies {
    fn times(&self, tally: &Tally, meter: &mut Meter) -> u64
        ensures value { result ≡ unwrap_or (tree.get tally_cmp self.now.kept.map tally.now) 0 }
        ensures counts { Within 0 1 meter.old meter.new }
    {
        match self.kept.get(tally, meter) {
            Some(times) => *times,
            None => 0,
        }
    }

    /// The number stands there once more.
    pub(crate) fn raise(&mut self, tally: Tally, meter: &mut Meter) -> Result<(), AllocError>
        requires { unwrap_or (tree.get tally_cmp self.old.kept.map tally) 0 < 2 ^ 41 }
        ensures times { OnOk result (Becomes tally_cmp self.old.kept.map self.new.kept.map tally
            (Some (unwrap_or (tree.get tally_cmp self.old.kept.map tally) 0 + 1))) }
        ensures counts { Within 1 1 meter.old meter.new }
    {
        let times = self.times(&tally, meter);
        self.kept.put(tally, times + 1, meter)
    }

    /// The number stands there once less.
    pub(crate) fn lower(&mut self, tally: Tally, meter: &mut Meter) -> Result<(), AllocError>
        ensures times { let times = unwrap_or (tree.get tally_cmp self.old.kept.map tally) 0 - 1 in
            OnOk result (Becomes tally_cmp self.old.kept.map self.new.kept.map tally (unless_none times times)) }
        ensures counts { Within 1 1 meter.old meter.new }
    {
        let times = self.times(&tally, meter);
        if times > 1 {
            return self.kept.put(tally, times - 1, meter);
        }
        self.kept.take(&tally, meter);
        Ok(())
    }

    /// The least and the greatest whole number of a group.
    pub(crate) fn ends(
        &self,
        alloc: Global,
        group: &Term,
        meter: &mut Meter,
    ) -> Result<Option<(i64, i64)>, Refusal>
        ensures ends { IfOk result (AreEnds self.now.kept.map group.now) }
        ensures memory { IfErr result (λ refusal. refusal ≡ Memory) }
        ensures counts { Within 0 2 meter.old meter.new }
    {
        let from = Tally {
            term: group.copy(alloc)?,
            whole: i64::MIN,
        };
        let to = Tally {
            term: group.copy(alloc)?,
            whole: i64::MAX,
        };
        let Some(least) = self.kept.first_between(&from, &to, meter) else {
            return Ok(None);
        };
        let Some(greatest) = self.kept.last_between(&from, &to, meter) else {
            return Ok(None);
        };
        Ok(Some((least.whole, greatest.whole)))
    }
}
