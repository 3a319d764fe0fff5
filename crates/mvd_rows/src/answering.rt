//! The questions to the rows: a page of an index, a row, a page of a view, and a page of the keys in conflict.
ghost use Rattle.std.specs.Prelude.{◌≡◌, ◌≢◌, ◌+◌, Ok, Err, IfOk, IfErr, length, option_copied};
ghost use Rattle.mvd_dots.specs.declared.refusals.Refusal.TheVariants.{Memory};
ghost use Rattle.mvd_rows.specs.Answers.{find_answer, range_answer, row_answer, rows_answer};
ghost use Rattle.mvd_rows.specs.Counted.{Within};
ghost use Rattle.mvd_rows.specs.Siblings.{conflicts_answer, conflicts_in};
ghost use Rattle.mvd_rows.specs.Stands.{IfRowsOf};
ghost use Rattle.mvd_rows.specs.Visible.{visible_in};

use crate::changes::Rows;
use crate::marks::Mark;
use crate::meters::Meter;
use crate::starts::{spot_of, start_of};
use crate::views::ShownRow;
use mvd_docs::{Field, Term, ViewName};
use mvd_dots::{Dot, Refusal};
use mvd_keys::{Key, Place};

impl Rows {
    /// The first thousand places of a term, in their order, strictly after a key and a dot, and whether more are left:
    /// by no update and at most as many looks as the page has places, and two more. `NoIndex` where the field has no
    /// index.
    pub fn find(
        &self,
        field: &Field,
        term: &Term,
        after: Option<(Key, Dot)>,
        meter: &mut Meter,
    ) -> Result<(Vec<Place>, bool), Refusal>
        ensures found { IfOk result (λ page. IfRowsOf self.now (λ defs states.
            find_answer defs (visible_in states) field.now term.now after ≡ Ok (page.0.items, page.1))) }
        ensures refused { IfErr result (λ refusal. refusal ≢ Memory → IfRowsOf self.now (λ defs states.
            find_answer defs (visible_in states) field.now term.now after ≡ Err refusal)) }
        ensures counts { Within 0 1002 meter.old meter.new }
        ensures none { IfErr result (λ refusal. refusal ≢ Memory → Within 0 0 meter.old meter.new) }
        ensures given { IfOk result (λ page. IfRowsOf self.now (λ _ _.
            Within 0 (length page.0.items + 2) meter.old meter.new)) }
    {
        let Some(index) = self.index_of(field) else {
            return Err(Refusal::NoIndex);
        };
        let start = Mark {
            term: term.copy(self.alloc)?,
            spot: spot_of(after),
        };
        index.page(self.alloc, &start, term, meter)
    }

    /// The first thousand places of the terms from one to another, both included, in their order, strictly after a
    /// place, and whether more are left: by no update and at most as many looks as the page has places, and two more.
    /// None where `from` is greater than `to`. `NoIndex` where the field has no index.
    pub fn range(
        &self,
        field: &Field,
        from: &Term,
        to: &Term,
        after: Option<Place>,
        meter: &mut Meter,
    ) -> Result<(Vec<Place>, bool), Refusal>
        ensures found { IfOk result (λ page. IfRowsOf self.now (λ defs states.
            range_answer defs (visible_in states) field.now from.now to.now after ≡ Ok (page.0.items, page.1))) }
        ensures refused { IfErr result (λ refusal. refusal ≢ Memory → IfRowsOf self.now (λ defs states.
            range_answer defs (visible_in states) field.now from.now to.now after ≡ Err refusal)) }
        ensures counts { Within 0 1002 meter.old meter.new }
        ensures none { IfErr result (λ refusal. refusal ≢ Memory → Within 0 0 meter.old meter.new) }
        ensures given { IfOk result (λ page. IfRowsOf self.now (λ _ _.
            Within 0 (length page.0.items + 2) meter.old meter.new)) }
    {
        let Some(index) = self.index_of(field) else {
            return Err(Refusal::NoIndex);
        };
        let start = start_of(self.alloc, from, after)?;
        index.page(self.alloc, &start, to, meter)
    }

    /// A group's count of siblings, the sum of their whole numbers, and the least and the greatest of these, if any, by
    /// no update and at most one look: 0, 0 and none for a group in which nothing stands. `NoView` where no view has
    /// the name. It takes no memory.
    pub fn row(
        &self,
        name: &ViewName,
        term: &Term,
        meter: &mut Meter,
    ) -> Result<(u64, i128, Option<(i64, i64)>), Refusal>
        ensures row { IfRowsOf self.now (λ defs states.
            result ≡ row_answer defs (visible_in states) name.now term.now) }
        ensures counts { Within 0 1 meter.old meter.new }
        ensures none { IfErr result (λ _. Within 0 0 meter.old meter.new) }
    {
        let Some(view) = self.view_of(name) else {
            return Err(Refusal::NoView);
        };
        let row = view.row_or_none(term, meter);
        Ok((row.count, row.sum, row.ends))
    }

    /// The first thousand rows of a view, by rising term, strictly after a term, and whether more are left: by no
    /// update and at most as many looks as the page has rows, and two more. `NoView` where no view has the name.
    pub fn rows(
        &self,
        name: &ViewName,
        after: Option<Term>,
        meter: &mut Meter,
    ) -> Result<(Vec<ShownRow>, bool), Refusal>
        ensures found { IfOk result (λ page. IfRowsOf self.now (λ defs states.
            rows_answer defs (visible_in states) name.now after ≡ Ok (page.0.items, page.1))) }
        ensures refused { IfErr result (λ refusal. refusal ≢ Memory → IfRowsOf self.now (λ defs states.
            rows_answer defs (visible_in states) name.now after ≡ Err refusal)) }
        ensures counts { Within 0 1002 meter.old meter.new }
        ensures none { IfErr result (λ refusal. refusal ≢ Memory → Within 0 0 meter.old meter.new) }
        ensures given { IfOk result (λ page. Within 0 (length page.0.items + 2) meter.old meter.new) }
    {
        let Some(view) = self.view_of(name) else {
            return Err(Refusal::NoView);
        };
        view.page(self.alloc, &after, meter)
    }

    /// The first thousand keys in conflict, rising, strictly after a key, each with the number of its siblings, and
    /// whether more are left: by no update and at most as many looks as the page has keys, and two more.
    pub fn conflicts(
        &self,
        after: Option<&Key>,
        meter: &mut Meter,
    ) -> Result<(Vec<(Key, u32)>, bool), Refusal>
        ensures found { IfOk result (λ page. IfRowsOf self.now (λ _ states.
            conflicts_answer states (option_copied after.entry) ≡ (page.0.items, page.1))) }
        ensures memory { IfErr result (λ refusal. refusal ≡ Memory) }
        ensures counts { Within 0 1002 meter.old meter.new }
        ensures given { IfOk result (λ page. Within 0 (length page.0.items + 2) meter.old meter.new) }
    {
        self.conflicts.page(self.alloc, after, meter)
    }

    /// How many keys are in conflict, without a walk.
    pub fn conflict_count(&self) -> usize
        ensures { IfRowsOf self.now (λ _ states. result ≡ length (conflicts_in states)) }
    {
        self.conflicts.count()
    }
}
