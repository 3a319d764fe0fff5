//! The keys in conflict.
ghost use Rattle.std.specs.Prelude.{◌≡◌, ◌+◌, ◌≤◌, ◌^◌, OnOk, IfErr, IfOk, length, option_copied};
ghost use Rattle.std.specs.BTreeMap as tree;
ghost use Rattle.std.specs.BTreeMap.Range.{entries_between};
ghost use Rattle.std.specs.FinMap.{FinMap, insert, len};
ghost use Rattle.std.specs.declared.ops.Bound.TheVariants.{Unbounded};
ghost use Rattle.mvd_dots.specs.declared.refusals.Refusal.TheVariants.{Memory};
ghost use Rattle.mvd_keys.specs.Key.{key_cmp};
ghost use Rattle.mvd_keys.specs.State.{State};
ghost use Rattle.mvd_rows.specs.Changes.{state_in};
ghost use Rattle.mvd_rows.specs.Counted.{Within};
ghost use Rattle.mvd_rows.specs.Pages.{IsPageOf, start_of};
ghost use Rattle.mvd_rows.specs.Siblings.{conflicts_in};
ghost use Rattle.mvd_rows.specs.Stands.{AreConflictsOf, if_conflict};

use crate::PAGE;
use crate::meters::Meter;
use crate::ordered_map::{Kept, Walk};
use mvd_dots::Refusal;
use mvd_keys::{Key, KeyState};
use std::alloc::Global;

/// The keys with two siblings or more, each with the number of its siblings.
#[derive(Drop)]
pub struct Conflicts {
    pub(crate) keys: Kept<Key, u32>,
}

/// How many siblings a state has, where they are in conflict.
#[tactic(auto, using(crate::proofs::InConflict::few_siblings, crate::proofs::InConflict::many_siblings))]
fn count_in_conflict(state: &KeyState) -> Option<usize>
    ensures { result ≡ if_conflict (len state.now.siblings) }
{
    let count = state.siblings().len();
    if count < 2 {
        return None;
    }
    Some(count)
}

impl Conflicts {
    /// A key goes from one state to another: by one update, or none where it was in no conflict and is in none, or has
    /// as many siblings as before.
    #[tactic(auto, using(crate::proofs::InConflict::comes, crate::proofs::InConflict::goes))]
    pub(crate) fn change(
        &mut self,
        alloc: Global,
        key: &Key,
        old: &KeyState,
        new: &KeyState,
        meter: &mut Meter,
    ) -> Result<(), Refusal>
        requires few { len new.now.siblings ≤ 2 ^ 17 }
        ensures keys { OnOk result ((states : FinMap key_cmp State) → AreConflictsOf self.old states →
            state_in states key.now ≡ old.now → AreConflictsOf self.new (insert states key.now new.now)) }
        ensures memory { IfErr result (λ refusal. refusal ≡ Memory) }
        ensures counts { Within 1 0 meter.old meter.new }
    {
        let count = count_in_conflict(new);
        if count == count_in_conflict(old) {
            return Ok(());
        }
        match count {
            Some(count) => self.keys.put(key.copy(alloc)?, count as u32, meter)?,
            None => self.keys.take(key, meter),
        }
        Ok(())
    }

    /// The keys after a key, or all.
    fn walk_after(&self, after: Option<&Key>, meter: &mut Meter) -> Walk<'_, Key, u32>
        ensures rest { result.rest ≡
            entries_between key_cmp (start_of (option_copied after.entry)) Unbounded self.now.keys.map.entries }
        ensures ordered { tree.IsOrdered key_cmp self.now.keys.map }
        ensures counts { Within 0 1 meter.old meter.new }
    {
        match after {
            Some(key) => self.keys.after(key, meter),
            None => self.keys.all(meter),
        }
    }

    /// The first thousand keys after a key, or of all, and whether more are left: by one look for each, and at most two
    /// more.
    pub(crate) fn page(
        &self,
        alloc: Global,
        after: Option<&Key>,
        meter: &mut Meter,
    ) -> Result<(Vec<(Key, u32)>, bool), Refusal>
        ensures ordered { tree.IsOrdered key_cmp self.now.keys.map }
        ensures page { IfOk result (λ page. IsPageOf
            (entries_between key_cmp (start_of (option_copied after.entry)) Unbounded self.now.keys.map.entries)
            page.0.items page.1) }
        ensures memory { IfErr result (λ refusal. refusal ≡ Memory) }
        ensures counts { Within 0 1002 meter.old meter.new }
        ensures given { IfOk result (λ page. Within 0 (length page.0.items + 2) meter.old meter.new) }
    {
        let mut keys = Vec::new(alloc);
        let mut walk = self.walk_after(after, meter);
        for _taken in 0..PAGE {
            let Some((key, siblings)) = walk.next(meter) else {
                return Ok((keys, false));
            };
            keys.push((key.copy(alloc)?, *siblings))?;
        }
        let more = walk.next(meter).is_some();
        Ok((keys, more))
    }

    /// How many they are.
    pub(crate) fn count(&self) -> usize
        ensures { (states : FinMap key_cmp State) → AreConflictsOf self.now states →
            result ≡ length (conflicts_in states) }
    {
        self.keys.len()
    }
}
