//! The places of one field.
ghost use Rattle.std.specs.Prelude.{◌≡◌, ◌+◌, Bool, List, ◌&&◌, length, not, filter, filter_map, None, Some, OnOk, IfErr};
ghost use Rattle.std.specs.Prelude.{IfOk};
ghost use Rattle.std.specs.BTreeMap.Range.{entries_between};
ghost use Rattle.std.specs.declared.ops.Bound.TheVariants.{Excluded, Unbounded};
ghost use Rattle.mvd_rows.specs.Marks.{mark_cmp};
ghost use Rattle.mvd_rows.specs.Pages.{IsPageOf, is_past, place_of_mark, up_to};
ghost use Rattle.mvd_rows.specs.Answers.{page_of, places_in};
ghost use Rattle.mvd_docs.specs.Term.{term_cmp};
ghost use Rattle.mvd_keys.specs.declared.places.Place.{Place as PlaceValue};
ghost use Rattle.std.specs.Ordering.{is_gt};
ghost use Rattle.std.specs.BTreeMap as tree;
ghost use Rattle.std.specs.FinMap as map;
ghost use Rattle.mvd_dots.specs.declared.refusals.Refusal.TheVariants.{Memory};
ghost use Rattle.mvd_rows.specs.Changes.{before, moved};
ghost use Rattle.mvd_rows.specs.Counted.{Within};
ghost use Rattle.mvd_rows.specs.Stands.{IsIndexOf};
ghost use Rattle.mvd_rows.specs.Visible.{Visible};

use crate::PAGE;
use crate::marks::{Mark, Spot};
use crate::meters::Meter;
use crate::moves::Way;
use crate::ordered_map::Kept;
use mvd_docs::{Field, Parsed, Term};
use mvd_dots::Refusal;
use mvd_keys::Place;
use std::alloc::Global;

/// Where documents with a term at the field stand.
#[derive(Drop)]
pub struct Index {
    pub(crate) field: Field,
    pub(crate) places: Kept<Mark, ()>,
}

impl Index {
    /// A sibling comes or goes.
    pub(crate) fn change(
        &mut self,
        alloc: Global,
        way: Way,
        spot: &Spot,
        document: &Parsed,
        meter: &mut Meter,
    ) -> Result<(), Refusal>
        ensures places { OnOk result ((visible : Visible) → IsIndexOf self.old visible →
            map.get visible spot.now ≡ before way document.now →
            IsIndexOf self.new (moved way visible spot.now document.now)) }
        ensures field { self.new.field ≡ self.old.field }
        ensures memory { IfErr result (λ refusal. refusal ≡ Memory) }
        ensures counts { Within 1 0 meter.old meter.new }
    {
        match way {
            Way::Comes => self.add(alloc, spot, document, meter),
            Way::Goes => self.remove(alloc, spot, document, meter),
        }
    }

    /// A sibling comes.
    #[tactic(auto, using(crate::proofs::Places::place_comes, crate::proofs::Places::nothing_comes))]
    fn add(
        &mut self,
        alloc: Global,
        spot: &Spot,
        document: &Parsed,
        meter: &mut Meter,
    ) -> Result<(), Refusal>
        ensures places { OnOk result ((visible : Visible) → IsIndexOf self.old visible →
            map.get visible spot.now ≡ None →
            IsIndexOf self.new (map.insert visible spot.now document.now)) }
        ensures field { self.new.field ≡ self.old.field }
        ensures memory { IfErr result (λ refusal. refusal ≡ Memory) }
        ensures counts { Within 1 0 meter.old meter.new }
    {
        if let Some(term) = document.term(alloc, &self.field)? {
            let mark = Mark {
                term,
                spot: Some(spot.copy(alloc)?),
            };
            self.places.put(mark, (), meter)?;
        }
        Ok(())
    }

    /// A sibling goes.
    #[tactic(auto, using(crate::proofs::Places::place_goes, crate::proofs::Places::nothing_goes))]
    fn remove(
        &mut self,
        alloc: Global,
        spot: &Spot,
        document: &Parsed,
        meter: &mut Meter,
    ) -> Result<(), Refusal>
        ensures places { OnOk result ((visible : Visible) → IsIndexOf self.old visible →
            map.get visible spot.now ≡ Some document.now →
            IsIndexOf self.new (map.remove visible spot.now)) }
        ensures field { self.new.field ≡ self.old.field }
        ensures memory { IfErr result (λ refusal. refusal ≡ Memory) }
        ensures counts { Within 1 0 meter.old meter.new }
    {
        if let Some(term) = document.term(alloc, &self.field)? {
            let mark = Mark {
                term,
                spot: Some(spot.copy(alloc)?),
            };
            self.places.take(&mark, meter);
        }
        Ok(())
    }

    /// The first thousand marks that stand after `start`, up to a term, and whether more are left: by one look for
    /// each, and at most two more.
    fn marks(
        &self,
        alloc: Global,
        start: &Mark,
        to: &Term,
        meter: &mut Meter,
    ) -> Result<(Vec<Mark>, bool), Refusal>
        ensures ordered { tree.IsOrdered mark_cmp self.now.places.map }
        ensures page { IfOk result (λ page. IsPageOf
            (up_to to.now (entries_between mark_cmp (Excluded start.now) Unbounded self.now.places.map.entries))
            page.0.items page.1) }
        ensures memory { IfErr result (λ refusal. refusal ≡ Memory) }
        ensures counts { Within 0 1002 meter.old meter.new }
        ensures given { IfOk result (λ page. Within 0 (length page.0.items + 2) meter.old meter.new) }
    {
        let mut marks = Vec::new(alloc);
        let mut walk = self.places.after(start, meter);
        for _taken in 0..PAGE {
            let Some((mark, _)) = walk.next(meter) else {
                return Ok((marks, false));
            };
            if mark.term.cmp(to).is_gt() {
                return Ok((marks, false));
            }
            marks.push(mark.copy(alloc)?)?;
        }
        let more = match walk.next(meter) {
            Some((mark, _)) => !mark.term.cmp(to).is_gt(),
            None => false,
        };
        Ok((marks, more))
    }

    /// The first thousand places that stand after `start`, up to a term, and whether more are left: by one look for
    /// each, and at most two more.
    pub(crate) fn page(
        &self,
        alloc: Global,
        start: &Mark,
        to: &Term,
        meter: &mut Meter,
    ) -> Result<(Vec<Place>, bool), Refusal>
        ensures page { IfOk result (λ page. (visible : Visible) → IsIndexOf self.now visible →
            ◌≡◌ {A = List PlaceValue × Bool} (page.0.items, page.1)
            (page_of (filter (λ p. is_past start.now p && not (is_gt (term_cmp p.term to.now)))
            (places_in self.now.field visible)))) }
        ensures memory { IfErr result (λ refusal. refusal ≡ Memory) }
        ensures counts { Within 0 1002 meter.old meter.new }
        ensures given { IfOk result (λ page. (visible : Visible) → IsIndexOf self.now visible →
            Within 0 (length page.0.items + 2) meter.old meter.new) }
    {
        let (marks, more) = self.marks(alloc, start, to, meter)?;
        let places = places_of(alloc, marks)?;
        Ok((places, more))
    }
}

/// The places of marks.
fn places_of(alloc: Global, marks: Vec<Mark>) -> Result<Vec<Place>, Refusal>
    ensures places { IfOk result (λ places. places.items ≡ filter_map place_of_mark marks.items) }
    ensures memory { IfErr result (λ refusal. refusal ≡ Memory) }
{
    let mut places = Vec::new(alloc);
    for mark in marks {
        let Mark { term, spot } = mark;
        if let Some(spot) = spot {
            let Spot { key, dot } = spot;
            places.push(Place { term, key, dot })?;
        }
    }
    Ok(places)
}
