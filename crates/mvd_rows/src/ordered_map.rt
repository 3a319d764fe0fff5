//! The ordered maps in which kept rows stand. All work on them is counted here.
ghost use Rattle.std.specs.Prelude.{◌≡◌, false, Some, None, OnOk, IfSome, IfNone, IsSome, option_copied};
ghost use Rattle.std.specs.Ordering.{is_lt};
ghost use Rattle.std.specs.Map.Iter.{TakesFirst, deref_pair};
ghost use Rattle.std.specs.BTreeMap as tree;
ghost use Rattle.std.specs.BTreeMap.Range.{IsLeBy, IsInRange, entries_between};
ghost use Rattle.std.specs.declared.ops.Bound.TheVariants.{Included, Excluded, Unbounded};
ghost use Rattle.mvd_rows.specs.Becomes.{Becomes};
ghost use Rattle.mvd_rows.specs.Counted.{CountsUpdate, CountsLook};

use crate::meters::Meter;
use std::alloc::{AllocError, Global};
use std::collections::BTreeMap;
use std::collections::btree_map::Range;
use std::ops::Bound;

/// An ordered map each of whose calls counts what it does: which entries it changes, and which it looks at.
#[derive(Drop)]
pub struct Kept<K: Ord, V> {
    map: BTreeMap<K, V>,
}

impl<K: Ord + Drop, V: Drop> Kept<K, V> {
    pub fn new(alloc: Global) -> Kept<K, V>
        ensures { tree.IsEmpty result.map }
    {
        Kept {
            map: BTreeMap::new(alloc),
        }
    }

    pub fn get(&self, key: &K, meter: &mut Meter) -> Option<&V>
        ensures value { option_copied result ≡ tree.get K.cmp self.now.map key.now }
        ensures counts { CountsLook meter.old meter.new }
    {
        meter.count_look();
        self.map.get(key)
    }

    /// How many entries there are. It looks at none of them.
    pub fn len(&self) -> usize
        ensures entries { result ≡ tree.btree_map_len self.now.map }
        ensures ordered { tree.IsOrdered K.cmp self.now.map }
    {
        self.map.len()
    }

    /// Puts an entry in, or alters the one that is there.
    pub fn put(&mut self, key: K, value: V, meter: &mut Meter) -> Result<(), AllocError>
        ensures updates { OnOk result (Becomes K.cmp self.old.map self.new.map key (Some value)) }
        ensures counts { CountsUpdate meter.old meter.new }
    {
        meter.count_update();
        self.map.insert(key, value)?;
        Ok(())
    }

    /// Takes an entry out.
    pub fn take(&mut self, key: &K, meter: &mut Meter)
        ensures updates { Becomes K.cmp self.old.map self.new.map key.now None }
        ensures counts { CountsUpdate meter.old meter.new }
    {
        meter.count_update();
        self.map.remove(key);
    }
}

impl<K: Ord + Drop, V: Drop> Kept<K, V> {
    /// All that stands after a key.
    pub fn after(&self, key: &K, meter: &mut Meter) -> Walk<'_, K, V>
        ensures rest { result.rest ≡ entries_between K.cmp (Excluded key.now) Unbounded self.now.map.entries }
        ensures ordered { tree.IsOrdered K.cmp self.now.map }
        ensures counts { CountsLook meter.old meter.new }
    {
        meter.count_look();
        Walk {
            rest: self.map.range((Bound::Excluded(key), Bound::Unbounded)),
        }
    }

    /// All that stands there.
    pub fn all(&self, meter: &mut Meter) -> Walk<'_, K, V>
        ensures rest { result.rest ≡ entries_between K.cmp Unbounded Unbounded self.now.map.entries }
        ensures ordered { tree.IsOrdered K.cmp self.now.map }
        ensures counts { CountsLook meter.old meter.new }
    {
        meter.count_look();
        let bounds: (Bound<&K>, Bound<&K>) = (Bound::Unbounded, Bound::Unbounded);
        Walk {
            rest: self.map.range(bounds),
        }
    }

    /// The first key from one to another, both included.
    pub fn first_between(&self, from: &K, to: &K, meter: &mut Meter) -> Option<&K>
        requires { IsLeBy K.cmp from.now to.now }
        ensures inside { IfSome result (λ k. IsInRange K.cmp (Included from.now) (Included to.now) k.now) }
        ensures found { IfSome result (λ k. IsSome (tree.get K.cmp self.now.map k.now)) }
        ensures least { IfSome result (λ k. (q : K) → IsInRange K.cmp (Included from.now) (Included to.now) q →
            IsSome (tree.get K.cmp self.now.map q) → IsLeBy K.cmp k.now q) }
        ensures none { IfNone result ((q : K) → IsInRange K.cmp (Included from.now) (Included to.now) q →
            tree.get K.cmp self.now.map q ≡ None) }
        ensures counts { CountsLook meter.old meter.new }
    {
        meter.count_look();
        match self
            .map
            .range((Bound::Included(from), Bound::Included(to)))
            .next()
        {
            Some((key, _)) => Some(key),
            None => None,
        }
    }

    /// The last key from one to another, both included.
    pub fn last_between(&self, from: &K, to: &K, meter: &mut Meter) -> Option<&K>
        requires { IsLeBy K.cmp from.now to.now }
        ensures inside { IfSome result (λ k. IsInRange K.cmp (Included from.now) (Included to.now) k.now) }
        ensures found { IfSome result (λ k. IsSome (tree.get K.cmp self.now.map k.now)) }
        ensures greatest { IfSome result (λ k. (q : K) → IsInRange K.cmp (Included from.now) (Included to.now) q →
            IsSome (tree.get K.cmp self.now.map q) → is_lt (K.cmp k.now q) ≡ false) }
        ensures none { IfNone result ((q : K) → IsInRange K.cmp (Included from.now) (Included to.now) q →
            tree.get K.cmp self.now.map q ≡ None) }
        ensures counts { CountsLook meter.old meter.new }
    {
        meter.count_look();
        match self
            .map
            .range((Bound::Included(from), Bound::Included(to)))
            .next_back()
        {
            Some((key, _)) => Some(key),
            None => None,
        }
    }
}

/// Kept entries, taken one by one.
#[derive(Drop)]
pub struct Walk<'a, K, V> {
    rest: Range<'a, K, V>,
}

impl<'a, K, V> Walk<'a, K, V> {
    pub fn next(&mut self, meter: &mut Meter) -> Option<(&'a K, &'a V)>
        ensures item { TakesFirst deref_pair self.old.rest result self.new.rest }
        ensures counts { CountsLook meter.old meter.new }
    {
        meter.count_look();
        self.rest.next()
    }
}
