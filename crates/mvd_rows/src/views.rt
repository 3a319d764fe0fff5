//! The rows of one view.
ghost use Rattle.std.specs.BTreeMap as tree;
ghost use Rattle.std.specs.Prelude.{◌≡◌, ◌+◌, ℕ, ℤ, Bool, List, Option, filter, length, map as list_map, unwrap_or, None};
ghost use Rattle.std.specs.Prelude.{Some, OnOk, IfErr, IfOk};
ghost use Rattle.std.specs.FinMap as map;
ghost use Rattle.std.specs.BTreeMap.Range.{entries_between};
ghost use Rattle.std.specs.declared.ops.Bound.TheVariants.{Unbounded};
ghost use Rattle.mvd_docs.specs.declared.term.Term.{Term as TermValue};
ghost use Rattle.mvd_rows.specs.Answers.{is_after_term, page_of, shown, view_in};
ghost use Rattle.mvd_rows.specs.Pages.{IsPageOf, shown_entry, start_of};
ghost use Rattle.mvd_dots.specs.declared.refusals.Refusal.TheVariants.{Memory};
ghost use Rattle.mvd_rows.specs.declared.marks.Spot.{Spot};
ghost use Rattle.mvd_docs.specs.Term.{term_cmp};
ghost use Rattle.mvd_rows.specs.Becomes.{Becomes};
ghost use Rattle.mvd_rows.specs.Changes.{before, moved};
ghost use Rattle.mvd_rows.specs.Counted.{Within};
ghost use Rattle.mvd_rows.specs.Stands.{IsViewOf, IsSmall, HasSameFields, definition_of, unless_none};
ghost use Rattle.mvd_rows.specs.Views.{widened, no_row, row_of};
ghost use Rattle.mvd_rows.specs.Visible.{Visible};

use crate::PAGE;
use crate::marks::Tally;
use crate::meters::Meter;
use crate::moves::Way;
use crate::ordered_map::{Kept, Walk};
use crate::tallies::Tallies;
use mvd_docs::{Field, Parsed, Term, ViewName};
use mvd_dots::Refusal;
use std::alloc::{AllocError, Global};

/// How many siblings a group has, the sum of what its sum field gives, and the least and the greatest of it.
#[derive(Clone, Copy)]
pub struct Row {
    pub count: u64,
    pub sum: i128,
    pub ends: Option<(i64, i64)>,
}

impl Row {
    /// A row of which nothing is a member.
    pub const NONE: Row = Row {
        count: 0,
        sum: 0,
        ends: None,
    };
}

/// The rows of the groups of one field, and how often each whole number stands in each group.
#[derive(Drop)]
pub struct View {
    pub(crate) name: ViewName,
    pub(crate) group: Field,
    pub(crate) sum: Field,
    pub(crate) rows: Kept<Term, Row>,
    pub(crate) tallies: Tallies,
}

/// A group's term, its count, its sum, and the least and the greatest whole number that stands there.
pub type ShownRow = (Term, u64, i128, Option<(i64, i64)>);

/// The ends of a group that a whole number comes into.
fn widened(whole: i64, ends: Option<(i64, i64)>) -> (i64, i64)
    ensures { Some result ≡ widened whole ends }
{
    match ends {
        Some((least, greatest)) => (whole.min(least), whole.max(greatest)),
        None => (whole, whole),
    }
}

/// A group with its row.
fn shown(alloc: Global, term: &Term, row: &Row) -> Result<ShownRow, Refusal>
    ensures shown { IfOk result (λ entry. entry ≡ shown term.now row.now) }
    ensures memory { IfErr result (λ refusal. refusal ≡ Memory) }
{
    Ok((term.copy(alloc)?, row.count, row.sum, row.ends))
}

impl View {
    /// The row of a group, or one of which nothing is a member. It takes no memory.
    #[tactic(auto, using(crate::proofs::Grouped::row_is))]
    pub(crate) fn row_or_none(&self, group: &Term, meter: &mut Meter) -> Row
        ensures row { result ≡ unwrap_or (tree.get term_cmp self.now.rows.map group.now) no_row }
        ensures is { (visible : Visible) → IsViewOf self.now visible →
            result ≡ row_of self.now.group self.now.sum group.now visible }
        ensures counts { Within 0 1 meter.old meter.new }
    {
        match self.rows.get(group, meter) {
            Some(row) => *row,
            None => Row::NONE,
        }
    }

    /// A sibling comes or goes.
    pub(crate) fn change(
        &mut self,
        alloc: Global,
        way: Way,
        document: &Parsed,
        meter: &mut Meter,
    ) -> Result<(), Refusal>
        requires { (visible : Visible) × (spot : Spot) ×
            (IsViewOf self.old visible × (IsSmall visible × (map.get visible spot ≡ before way document.now))) }
        ensures rows { OnOk result ((visible : Visible) (spot : Spot) → IsViewOf self.old visible →
            map.get visible spot ≡ before way document.now →
            IsViewOf self.new (moved way visible spot document.now)) }
        ensures fields { HasSameFields self.old self.new }
        ensures memory { IfErr result (λ refusal. refusal ≡ Memory) }
        ensures counts { Within 2 4 meter.old meter.new }
    {
        match way {
            Way::Comes => self.add(alloc, document, meter),
            Way::Goes => self.remove(alloc, document, meter),
        }
    }

    /// A sibling comes.
    #[tactic(auto, using(crate::proofs::Grouped::none_come, crate::proofs::Grouped::plain_comes, crate::proofs::Grouped::whole_comes))]
    fn add(&mut self, alloc: Global, document: &Parsed, meter: &mut Meter) -> Result<(), Refusal>
        requires { (visible : Visible) × (IsViewOf self.old visible × IsSmall visible) }
        ensures rows { OnOk result ((visible : Visible) (spot : Spot) → IsViewOf self.old visible →
            map.get visible spot ≡ None →
            IsViewOf self.new (map.insert visible spot document.now)) }
        ensures fields { HasSameFields self.old self.new }
        ensures memory { IfErr result (λ refusal. refusal ≡ Memory) }
        ensures counts { Within 2 2 meter.old meter.new }
    {
        let Some(group) = document.term(alloc, &self.group)? else {
            return Ok(());
        };
        let old = self.row_or_none(&group, meter);
        let Some(whole) = document.whole(&self.sum) else {
            let row = Row {
                count: old.count + 1,
                ..old
            };
            self.rows.put(group, row, meter)?;
            return Ok(());
        };
        let tally = Tally {
            term: group.copy(alloc)?,
            whole,
        };
        self.tallies.raise(tally, meter)?;
        let row = Row {
            count: old.count + 1,
            sum: whole as i128 + old.sum,
            ends: Some(widened(whole, old.ends)),
        };
        self.rows.put(group, row, meter)?;
        Ok(())
    }

    /// A sibling goes.
    #[tactic(auto, using(crate::proofs::Going::none_go))]
    fn remove(&mut self, alloc: Global, document: &Parsed, meter: &mut Meter) -> Result<(), Refusal>
        requires { (visible : Visible) × (spot : Spot) ×
            (IsViewOf self.old visible × (IsSmall visible × (map.get visible spot ≡ Some document.now))) }
        ensures rows { OnOk result ((visible : Visible) (spot : Spot) → IsViewOf self.old visible →
            map.get visible spot ≡ Some document.now →
            IsViewOf self.new (map.remove visible spot)) }
        ensures fields { HasSameFields self.old self.new }
        ensures memory { IfErr result (λ refusal. refusal ≡ Memory) }
        ensures counts { Within 2 4 meter.old meter.new }
    {
        let Some(group) = document.term(alloc, &self.group)? else {
            return Ok(());
        };
        let old = self.row_or_none(&group, meter);
        let Some(whole) = document.whole(&self.sum) else {
            let row = Row {
                count: old.count - 1,
                ..old
            };
            self.set_row(group, row, meter)?;
            return Ok(());
        };
        let tally = Tally {
            term: group.copy(alloc)?,
            whole,
        };
        self.tallies.lower(tally, meter)?;
        let row = Row {
            count: old.count - 1,
            sum: old.sum - whole as i128,
            ends: self.tallies.ends(alloc, &group, meter)?,
        };
        self.set_row(group, row, meter)?;
        Ok(())
    }

    /// The rows after a term, or all.
    fn walk_after(&self, after: &Option<Term>, meter: &mut Meter) -> Walk<'_, Term, Row>
        ensures rest { result.rest ≡ entries_between term_cmp (start_of after.now) Unbounded self.now.rows.map.entries }
        ensures ordered { tree.IsOrdered term_cmp self.now.rows.map }
        ensures counts { Within 0 1 meter.old meter.new }
    {
        match after {
            Some(term) => self.rows.after(term, meter),
            None => self.rows.all(meter),
        }
    }

    /// The first thousand rows after a term, and whether more are left: by one look for each, and at most two more.
    fn some_rows(
        &self,
        alloc: Global,
        after: &Option<Term>,
        meter: &mut Meter,
    ) -> Result<(Vec<ShownRow>, bool), Refusal>
        ensures ordered { tree.IsOrdered term_cmp self.now.rows.map }
        ensures page { IfOk result (λ page. IsPageOf
            (list_map shown_entry
            (entries_between term_cmp (start_of after.now) Unbounded self.now.rows.map.entries))
            page.0.items page.1) }
        ensures memory { IfErr result (λ refusal. refusal ≡ Memory) }
        ensures counts { Within 0 1002 meter.old meter.new }
        ensures given { IfOk result (λ page. Within 0 (length page.0.items + 2) meter.old meter.new) }
    {
        let mut rows = Vec::new(alloc);
        let mut walk = self.walk_after(after, meter);
        for _taken in 0..PAGE {
            let Some((term, row)) = walk.next(meter) else {
                return Ok((rows, false));
            };
            rows.push(shown(alloc, term, row)?)?;
        }
        let more = walk.next(meter).is_some();
        Ok((rows, more))
    }

    /// The first thousand rows after a term, and whether more are left: by one look for each, and at most two more.
    pub(crate) fn page(
        &self,
        alloc: Global,
        after: &Option<Term>,
        meter: &mut Meter,
    ) -> Result<(Vec<ShownRow>, bool), Refusal>
        ensures page { IfOk result (λ page. (visible : Visible) → IsViewOf self.now visible →
            ◌≡◌ {A = List (TermValue × ℕ × ℤ × Option (ℤ × ℤ)) × Bool} (page.0.items, page.1)
            (page_of (filter (λ r. is_after_term after.now r.0) (view_in (definition_of self.now) visible)))) }
        ensures memory { IfErr result (λ refusal. refusal ≡ Memory) }
        ensures counts { Within 0 1002 meter.old meter.new }
        ensures given { IfOk result (λ page. Within 0 (length page.0.items + 2) meter.old meter.new) }
    {
        self.some_rows(alloc, after, meter)
    }

    /// Keeps a row, unless nothing is a member of it.
    fn set_row(&mut self, group: Term, row: Row, meter: &mut Meter) -> Result<(), AllocError>
        ensures row { OnOk result (Becomes term_cmp self.old.rows.map self.new.rows.map group
            (unless_none row.count row)) }
        ensures fields { HasSameFields self.old self.new }
        ensures tallies { self.new.tallies ≡ self.old.tallies }
        ensures counts { Within 1 0 meter.old meter.new }
    {
        if row.count > 0 {
            return self.rows.put(group, row, meter);
        }
        self.rows.take(&group, meter);
        Ok(())
    }
}
