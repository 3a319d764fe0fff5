//! What the questions look up first: the index or the view, and where a page starts.
ghost use Rattle.std.specs.Prelude.{◌≡◌, ◌&&◌, true, false, not, None, Some, IfOk, IfErr, IfNone, IfSome};
ghost use Rattle.std.specs.Ordering.{is_gt};
ghost use Rattle.mvd_dots.specs.declared.refusals.Refusal.TheVariants.{Memory};
ghost use Rattle.mvd_docs.specs.Term.{term_cmp};
ghost use Rattle.mvd_keys.specs.declared.places.Place.{Place as PlaceValue};
ghost use Rattle.mvd_rows.specs.Answers.{is_after_place, view_named};
ghost use Rattle.mvd_rows.specs.Defs.{has_index};
ghost use Rattle.mvd_rows.specs.Pages.{is_past, mark_of, spot_at};
ghost use Rattle.mvd_rows.specs.Stands.{AreRowsOf, IsIndexOf, IsViewOf, definition_of, definitions_of};
ghost use Rattle.mvd_rows.specs.Visible.{Visible};

use crate::changes::Rows;
use crate::index::Index;
use crate::marks::{Mark, Spot};
use crate::views::View;
use mvd_docs::{Field, Term, ViewName};
use mvd_dots::{Dot, Refusal};
use mvd_keys::{Key, Place};
use std::alloc::Global;

/// The spot after which the places of a term are asked for.
pub(crate) fn spot_of(after: Option<(Key, Dot)>) -> Option<Spot>
    ensures { result ≡ spot_at after }
{
    match after {
        Some((key, dot)) => Some(Spot { key, dot }),
        None => None,
    }
}

/// The mark before all places of a term.
fn first_of(alloc: Global, term: &Term) -> Result<Mark, Refusal>
    ensures mark { IfOk result (λ mark. mark ≡ record { term = term.now; spot = None }) }
    ensures memory { IfErr result (λ refusal. refusal ≡ Memory) }
{
    let term = term.copy(alloc)?;
    Ok(Mark { term, spot: None })
}

/// The mark of a place.
fn mark_of(place: Place) -> Mark
    ensures { result ≡ mark_of place }
{
    let Place { term, key, dot } = place;
    Mark {
        term,
        spot: Some(Spot { key, dot }),
    }
}

/// The mark after which the places from a term on, and after a place, stand.
pub(crate) fn start_of(alloc: Global, from: &Term, after: Option<Place>) -> Result<Mark, Refusal>
    ensures start { IfOk result (λ start. (p : PlaceValue) →
        (not (is_gt (term_cmp from.now p.term)) && is_after_place after p) ≡ is_past start p) }
    ensures memory { IfErr result (λ refusal. refusal ≡ Memory) }
{
    match after {
        None => first_of(alloc, from),
        Some(place) => {
            if place.term.cmp(from).is_lt() {
                return first_of(alloc, from);
            }
            Ok(mark_of(place))
        }
    }
}

impl Rows {
    pub(crate) fn index_of(&self, field: &Field) -> Option<&Index>
        ensures has { IfSome result (λ index. has_index (definitions_of self.now).indexes field.now ≡ true) }
        ensures field { IfSome result (λ index. index.now.field ≡ field.now) }
        ensures places { IfSome result (λ index. (visible : Visible) →
            AreRowsOf self.now.indexes.items self.now.views.items visible → IsIndexOf index.now visible) }
        ensures missing { IfNone result (has_index (definitions_of self.now).indexes field.now ≡ false) }
    {
        for index in &self.indexes {
            if field.text() == index.field.text() {
                return Some(index);
            }
        }
        None
    }

    pub(crate) fn view_of(&self, name: &ViewName) -> Option<&View>
        ensures named { IfSome result (λ view. view_named (definitions_of self.now).views name.now ≡
            Some (definition_of view.now)) }
        ensures rows { IfSome result (λ view. (visible : Visible) →
            AreRowsOf self.now.indexes.items self.now.views.items visible → IsViewOf view.now visible) }
        ensures missing { IfNone result (view_named (definitions_of self.now).views name.now ≡ None) }
    {
        for view in &self.views {
            if name.text() == view.name.text() {
                return Some(view);
            }
        }
        None
    }
}
