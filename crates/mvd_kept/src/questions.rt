//! Questions to the hash tree, the indexes, the views and the keys: they change nothing and hash nothing, and but for
//! the page of keys they look at no held state, since they are handed no count of that.
ghost use Rattle.std.specs.Prelude.{◌≡◌, ◌≢◌, ◌≤◌, false, length, IfErr, IfOk, Ok, Err};
ghost use Rattle.std.specs.Option.{option_copied};
ghost use Rattle.mvd_count.specs.Counted.{RoseBy};
ghost use Rattle.mvd_dots.specs.Answer.{IsAnswer};
ghost use Rattle.mvd_dots.specs.declared.refusals.Refusal.TheVariants.{Broken, Memory};
ghost use Rattle.mvd_rows.specs.Answers.{find_answer, range_answer, row_answer, rows_answer};
ghost use Rattle.mvd_rows.specs.Counted.{Within};
ghost use Rattle.mvd_rows.specs.Siblings.{conflicts_answer, conflicts_in, keys_answer};
ghost use Rattle.mvd_rows.specs.Visible.{visible_in};
ghost use Rattle.mvd_tree.specs.Page.{is_more_after_page, bucket_page};
ghost use Rattle.mvd_wire.specs.declared.reply.Reply.TheVariants.{Digests as Told};
ghost use Rattle.mvd_kept.specs.Answer.{bucket_answer, counts_reply, digests, node_digests};
ghost use Rattle.mvd_kept.specs.Answer.{places_reply, row_reply, rows_reply};
ghost use Rattle.mvd_kept.specs.Costs.{prepared_looks};
ghost use Rattle.mvd_kept.specs.FromStates.{bucket_refusal, unless_broken};
ghost use Rattle.mvd_kept.specs.Prepared.{IsReady, PreparesReply};

use crate::kept::Kept;
use crate::prepared::Prepared;
use crate::work::HeldLook;
use mvd_count::Count;
use mvd_docs::{Field, Term, ViewName};
use mvd_dots::{Dot, Refusal};
use mvd_keys::{Key, Path, Place};
use mvd_rows::Meter;
use mvd_wire::{Digests, Items, Prefix, Reply, RowValue};
use std::alloc::Global;

impl Kept {
    /// The digests of a node and, above the buckets, of its children. It takes no memory; a broken site refuses it.
    pub fn node(&self, path: &Path) -> Result<Digests, Refusal>
        ensures { result ≡ unless_broken self.now.broken (Err Broken)
            (Ok (node_digests (digests self.now.states) path.now)) }
    {
        if self.broken {
            Err(Refusal::Broken)
        } else {
            Ok(Digests {
                own: self.tree.node(path),
                children: self.tree.children(path),
            })
        }
    }

    /// A page of at most 1,000 of a bucket's keys with their digests, those after a key if one is given, and whether
    /// more follow. `BadPath` where the path has not three digits; a broken site refuses it.
    pub fn bucket(
        &self,
        path: &Path,
        after: Option<&Key>,
    ) -> Result<(Vec<(Key, [u8; 32])>, bool), Refusal>
        ensures whole { IfOk result (λ _. self.now.broken ≡ false) }
        ensures path { IfOk result (λ _. length path.now ≡ 3) }
        ensures keys { IfOk result (λ page. page.0.items ≡
            bucket_page (digests self.now.states) path.now (option_copied after.entry)) }
        ensures more { IfOk result (λ page. page.1 ≡
            is_more_after_page (digests self.now.states) path.now (option_copied after.entry)) }
        ensures refused { IfErr result (λ refusal. refusal ≡ bucket_refusal self.now.broken path.now) }
    {
        if self.broken {
            return Err(Refusal::Broken);
        }
        self.tree.bucket(path, after)
    }

    /// How many keys are in conflict, 0 where it is broken. It looks at no held state and at no kept row.
    pub fn conflict_count(&self) -> u32
        ensures count { result ≡ unless_broken self.now.broken 0 (length (conflicts_in self.now.states)) }
        ensures room { result ≤ self.now.config.max_keys }
    {
        if self.broken {
            return 0;
        }
        let most = self.config.max_keys();
        let count = self.rows.conflict_count();
        prove!(count <= most as usize);
        count as u32
    }

    pub(crate) fn prepare_node(&self, path: &Path) -> Result<Prepared, Refusal>
        requires { self.now.broken ≡ false }
        ensures answer { PreparesReply (Told (node_digests (digests self.now.states) path.now)) result }
        ensures ready { IfOk result (IsReady self.now) }
        ensures whole { IfErr result (λ refusal. refusal ≢ Broken) }
        ensures frugal { IfErr result (λ refusal. refusal ≢ Memory) }
    {
        let digests = self.node(path)?;
        Ok(Prepared::Answer(Reply::Digests(digests)))
    }

    pub(crate) fn prepare_bucket(
        &self,
        path: &Path,
        after: Option<&Key>,
    ) -> Result<Prepared, Refusal>
        requires { self.now.broken ≡ false }
        ensures answer { PreparesReply
            (bucket_answer (digests self.now.states) path.now (option_copied after.entry)) result }
        ensures ready { IfOk result (IsReady self.now) }
        ensures whole { IfErr result (λ refusal. refusal ≢ Broken) }
    {
        self.states.stands();
        let (keys, is_more) = self.bucket(path, after)?;
        Ok(Prepared::Answer(Reply::Keys(Items::new(keys), is_more)))
    }

    /// A page of the places of a term.
    pub(crate) fn prepare_find(
        &self,
        field: &Field,
        term: &Term,
        after: &Option<(Key, Dot)>,
        meter: &mut Meter,
    ) -> Result<Prepared, Refusal>
        requires { self.now.broken ≡ false }
        ensures answer { PreparesReply
            (places_reply
            (find_answer self.now.config.defs (visible_in self.now.states) field.now term.now after.now))
            result }
        ensures ready { IfOk result (IsReady self.now) }
        ensures whole { IfErr result (λ refusal. refusal ≢ Broken) }
        ensures looks { Within 0 (prepared_looks result) meter.old meter.new }
    {
        self.states.stands();
        let after = copy_spot(self.alloc, after)?;
        let (places, is_more) = self.rows.find(field, term, after, meter)?;
        Ok(Prepared::Answer(Reply::Places(Items::new(places), is_more)))
    }

    /// A page of the places of the terms from one to another.
    pub(crate) fn prepare_range(
        &self,
        field: &Field,
        from: &Term,
        to: &Term,
        after: &Option<Place>,
        meter: &mut Meter,
    ) -> Result<Prepared, Refusal>
        requires { self.now.broken ≡ false }
        ensures answer { PreparesReply
            (places_reply
            (range_answer self.now.config.defs (visible_in self.now.states) field.now from.now to.now after.now))
            result }
        ensures ready { IfOk result (IsReady self.now) }
        ensures whole { IfErr result (λ refusal. refusal ≢ Broken) }
        ensures looks { Within 0 (prepared_looks result) meter.old meter.new }
    {
        self.states.stands();
        let after = copy_place(self.alloc, after)?;
        let (places, is_more) = self.rows.range(field, from, to, after, meter)?;
        Ok(Prepared::Answer(Reply::Places(Items::new(places), is_more)))
    }

    /// A row of a view.
    pub(crate) fn prepare_row(
        &self,
        view: &ViewName,
        term: &Term,
        meter: &mut Meter,
    ) -> Result<Prepared, Refusal>
        requires { self.now.broken ≡ false }
        ensures answer { PreparesReply
            (row_reply (row_answer self.now.config.defs (visible_in self.now.states) view.now term.now)) result }
        ensures ready { IfOk result (IsReady self.now) }
        ensures whole { IfErr result (λ refusal. refusal ≢ Broken) }
        ensures frugal { IfErr result (λ refusal. refusal ≢ Memory) }
        ensures looks { Within 0 (prepared_looks result) meter.old meter.new }
    {
        let (count, sum, ends) = self.rows.row(view, term, meter)?;
        Ok(Prepared::Answer(Reply::Row(RowValue { count, sum, ends })))
    }

    /// A page of a view's rows.
    pub(crate) fn prepare_rows(
        &self,
        view: &ViewName,
        after: &Option<Term>,
        meter: &mut Meter,
    ) -> Result<Prepared, Refusal>
        requires { self.now.broken ≡ false }
        ensures answer { PreparesReply
            (rows_reply (rows_answer self.now.config.defs (visible_in self.now.states) view.now after.now)) result }
        ensures ready { IfOk result (IsReady self.now) }
        ensures whole { IfErr result (λ refusal. refusal ≢ Broken) }
        ensures looks { Within 0 (prepared_looks result) meter.old meter.new }
    {
        let after = copy_term(self.alloc, after)?;
        let (rows, is_more) = self.rows.rows(view, after, meter)?;
        Ok(Prepared::Answer(Reply::Rows(Items::new(rows), is_more)))
    }

    /// A page of the keys that begin with a prefix.
    pub(crate) fn prepare_keys(
        &self,
        prefix: &Prefix,
        after: Option<&Key>,
        looks: &mut Count<HeldLook>,
    ) -> Result<Prepared, Refusal>
        ensures answer { PreparesReply
            (counts_reply (keys_answer self.now.states prefix.now (option_copied after.entry))) result }
        ensures ready { IfOk result (IsReady self.now) }
        ensures whole { IfErr result (λ refusal. refusal ≢ Broken) }
        ensures looked { RoseBy (prepared_looks result) looks.old looks.new }
    {
        self.states.stands();
        let (keys, is_more) = self.states.keys(self.alloc, prefix, after, looks)?;
        Ok(Prepared::Answer(Reply::Counts(Items::new(keys), is_more)))
    }

    /// A page of the keys in conflict.
    pub(crate) fn prepare_conflicts(
        &self,
        after: Option<&Key>,
        meter: &mut Meter,
    ) -> Result<Prepared, Refusal>
        requires { self.now.broken ≡ false }
        ensures answer { PreparesReply
            (counts_reply (conflicts_answer self.now.states (option_copied after.entry))) result }
        ensures ready { IfOk result (IsReady self.now) }
        ensures whole { IfErr result (λ refusal. refusal ≢ Broken) }
        ensures looks { Within 0 (prepared_looks result) meter.old meter.new }
    {
        self.states.stands();
        let (keys, is_more) = self.rows.conflicts(after, meter)?;
        Ok(Prepared::Answer(Reply::Counts(Items::new(keys), is_more)))
    }
}

fn copy_spot(alloc: Global, spot: &Option<(Key, Dot)>) -> Result<Option<(Key, Dot)>, Refusal>
    ensures { IsAnswer result (Ok spot.now) }
{
    match spot {
        Some((key, dot)) => Ok(Some((key.copy(alloc)?, *dot))),
        None => Ok(None),
    }
}

fn copy_place(alloc: Global, place: &Option<Place>) -> Result<Option<Place>, Refusal>
    ensures { IsAnswer result (Ok place.now) }
{
    match place {
        Some(place) => Ok(Some(place.copy(alloc)?)),
        None => Ok(None),
    }
}

fn copy_term(alloc: Global, term: &Option<Term>) -> Result<Option<Term>, Refusal>
    ensures { IsAnswer result (Ok term.now) }
{
    match term {
        Some(term) => Ok(Some(term.copy(alloc)?)),
        None => Ok(None),
    }
}
