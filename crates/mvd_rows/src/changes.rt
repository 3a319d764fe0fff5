//! All kept rows, and how they follow a change of a key's state.
ghost use Rattle.std.specs.Prelude.{◌≡◌, ◌+◌, ◌*◌, ◌≤◌, ◌^◌, OnOk, IfErr, IsTrue, length};
ghost use Rattle.std.specs.FinMap.{insert, len};
ghost use Rattle.mvd_keys.specs.State.{pairs_of, rises};
ghost use Rattle.mvd_rows.specs.Changes.{CanMove, HasSiblings, before, growth, moved, moved_all, not_among};
ghost use Rattle.mvd_rows.specs.Changes.{differing, looks_each, put_in, state_in, taken_out, updates_each};
ghost use Rattle.std.specs.FinMap as map;
ghost use Rattle.mvd_dots.specs.declared.refusals.Refusal.TheVariants.{Broken, Memory};
ghost use Rattle.mvd_rows.specs.Counted.{Within, WithinUpdates};
ghost use Rattle.mvd_rows.specs.Stands.{HasRoomFor, IfRowsOf, IsRowsOf, IsSmall, StandFor, definitions_of};
ghost use Rattle.mvd_rows.specs.Visible.{Visible};

use crate::among::is_among;
use crate::conflicts::Conflicts;
use crate::index::Index;
use crate::loops::{change_places, change_rows};
use crate::marks::Spot;
use crate::meters::Meter;
use crate::moves::Way;
use crate::views::View;
use mvd_docs::{Document, Parsed};
use mvd_dots::Refusal;
use mvd_keys::{Key, KeyState, Sibling};
use std::alloc::Global;

/// The places of each index, the rows of each view and the keys in conflict. They stand for a map of key states: every
/// answer is the one that computing afresh from those states would give. Each call adds the work that it took to the
/// counts handed in: how many entries of the kept rows were put in, taken out or altered, and how many looks were made
/// at them.
#[derive(Drop)]
pub struct Rows {
    pub(crate) alloc: Global,
    pub(crate) indexes: Vec<Index>,
    pub(crate) views: Vec<View>,
    pub(crate) conflicts: Conflicts,
}

impl Rows {
    /// A sibling comes or goes.
    fn move_one(
        &mut self,
        way: Way,
        spot: &Spot,
        document: &Document,
        meter: &mut Meter,
    ) -> Result<(), Refusal>
        requires { (visible : Visible) × (StandFor self.old visible × (IsSmall visible ×
            (map.get visible spot.now ≡ before way document.now))) }
        ensures rows { OnOk result ((visible : Visible) → StandFor self.old visible →
            map.get visible spot.now ≡ before way document.now →
            StandFor self.new (moved way visible spot.now document.now)) }
        ensures defs { OnOk result (definitions_of self.new ≡ definitions_of self.old) }
        ensures conflicts { self.new.conflicts ≡ self.old.conflicts }
        ensures indexes { length self.new.indexes.items ≡ length self.old.indexes.items }
        ensures views { length self.new.views.items ≡ length self.old.views.items }
        ensures memory { IfErr result (λ refusal. refusal ≡ Memory) }
        ensures counts { Within (length self.old.indexes.items + 2 * length self.old.views.items)
            (4 * length self.old.views.items) meter.old meter.new }
    {
        let parsed = Parsed::of(self.alloc, document)?;
        change_places(self.alloc, &mut self.indexes, way, spot, &parsed, meter)?;
        change_rows(self.alloc, &mut self.views, way, &parsed, meter)?;
        Ok(())
    }

    /// The siblings that are not among the others come or go.
    fn move_all(
        &mut self,
        way: Way,
        key: &Key,
        siblings: &[Sibling],
        others: &[Sibling],
        meter: &mut Meter,
    ) -> Result<(), Refusal>
        requires rising { IsTrue (rises siblings.now) }
        requires others_rise { IsTrue (rises others.now) }
        requires room { (visible : Visible) × (StandFor self.old visible ×
            (len visible + growth way (length siblings.now) ≤ 2 ^ 40) ×
            CanMove way visible key.now (pairs_of others.now) (pairs_of siblings.now)) }
        ensures rows { OnOk result ((visible : Visible) → StandFor self.old visible →
            CanMove way visible key.now (pairs_of others.now) (pairs_of siblings.now) →
            StandFor self.new (moved_all way visible key.now
            (not_among (pairs_of others.now) (pairs_of siblings.now)))) }
        ensures defs { OnOk result (definitions_of self.new ≡ definitions_of self.old) }
        ensures conflicts { self.new.conflicts ≡ self.old.conflicts }
        ensures indexes { length self.new.indexes.items ≡ length self.old.indexes.items }
        ensures views { length self.new.views.items ≡ length self.old.views.items }
        ensures memory { IfErr result (λ refusal. refusal ≡ Memory) }
        ensures counts { let moved = length (not_among (pairs_of others.now) (pairs_of siblings.now)) in
            Within (moved * (length self.old.indexes.items + 2 * length self.old.views.items))
            (moved * (4 * length self.old.views.items)) meter.old meter.new }
    {
        for sibling in siblings {
            if !is_among(others, sibling) {
                let spot = Spot {
                    key: key.copy(self.alloc)?,
                    dot: sibling.dot,
                };
                self.move_one(way, &spot, &sibling.document, meter)?;
            }
        }
        Ok(())
    }

    /// From the one list of a key's siblings to the other. What stands in both is not touched, and a document is read
    /// again only where an index or a view asks it.
    fn replace(
        &mut self,
        key: &Key,
        old: &[Sibling],
        new: &[Sibling],
        meter: &mut Meter,
    ) -> Result<(), Refusal>
        requires rising_old { IsTrue (rises old.now) }
        requires rising_new { IsTrue (rises new.now) }
        requires room { (visible : Visible) × (StandFor self.old visible ×
            (len visible + length new.now ≤ 2 ^ 40) × HasSiblings visible key.now (pairs_of old.now)) }
        ensures rows { OnOk result ((visible : Visible) → StandFor self.old visible →
            HasSiblings visible key.now (pairs_of old.now) →
            StandFor self.new (put_in
            (taken_out visible key.now (not_among (pairs_of new.now) (pairs_of old.now)))
            key.now (not_among (pairs_of old.now) (pairs_of new.now)))) }
        ensures defs { OnOk result (definitions_of self.new ≡ definitions_of self.old) }
        ensures conflicts { self.new.conflicts ≡ self.old.conflicts }
        ensures memory { IfErr result (λ refusal. refusal ≡ Memory) }
        ensures counts { let moved = length (not_among (pairs_of new.now) (pairs_of old.now)) +
            length (not_among (pairs_of old.now) (pairs_of new.now)) in
            Within (moved * (length self.old.indexes.items + 2 * length self.old.views.items))
            (moved * (4 * length self.old.views.items)) meter.old meter.new }
    {
        if self.indexes.is_empty() && self.views.is_empty() {
            return Ok(());
        }
        self.move_all(Way::Goes, key, old, new, meter)?;
        self.move_all(Way::Comes, key, new, old, meter)?;
        Ok(())
    }

    /// From standing for a map in which the key has the old state, empty where it is not held, to standing for that
    /// map with the new state there. The map has at most `2^20` keys, and each state at most `2^17` siblings. The one
    /// refusal is `Broken`, for want of memory: after it the rows stand for nothing. For each sibling that stands in
    /// one of the two states alone it makes at most one update for each index and two for each view, and at most four
    /// looks for each view; one that stands in both is not touched and costs none. The keys in conflict take at most
    /// one update more, and no look.
    pub fn change(
        &mut self,
        key: &Key,
        old: &KeyState,
        new: &KeyState,
        meter: &mut Meter,
    ) -> Result<(), Refusal>
        requires room { HasRoomFor self.old key.now old.now new.now }
        ensures stands { OnOk result (IfRowsOf self.old (λ defs states. state_in states key.now ≡ old.now →
            IsRowsOf self.new defs (insert states key.now new.now))) }
        ensures broken { IfErr result (λ refusal. refusal ≡ Broken) }
        ensures differing { WithinUpdates (differing old.now new.now * updates_each (definitions_of self.old) + 1)
            meter.old meter.new }
        ensures looks { Within (differing old.now new.now * updates_each (definitions_of self.old) + 1)
            (differing old.now new.now * looks_each (definitions_of self.old)) meter.old meter.new }
        ensures most { WithinUpdates
            ((len old.now.siblings + len new.now.siblings) * updates_each (definitions_of self.old) + 1)
            meter.old meter.new }
    {
        let Ok(()) = self.conflicts.change(self.alloc, key, old, new, meter) else {
            return Err(Refusal::Broken);
        };
        match self.replace(key, old.siblings(), new.siblings(), meter) {
            Ok(()) => Ok(()),
            Err(_) => Err(Refusal::Broken),
        }
    }
}
