//! What rows are kept of.
ghost use Rattle.std.specs.Prelude.{◌≡◌, ◌≢◌, Ok, Err, OnOk, OnErr, IfOk, IfErr};
ghost use Rattle.mvd_dots.specs.Answer.{IsAnswer};
ghost use Rattle.mvd_rows.specs.Defs.{has_index, has_view, no_definitions, with_index, with_view};

use mvd_docs::{Field, ViewName};
use mvd_dots::Refusal;
use std::alloc::Global;
use std::marker::Model;

const MOST: usize = 16;

/// A view: the field by whose terms documents are grouped, and the field whose whole numbers are added up.
#[derive(Drop)]
pub struct ViewDef {
    pub name: ViewName,
    pub group: Field,
    pub sum: Field,
}

/// The fields that have an index, and the views: at most 16 of each.
#[derive(Drop)]
pub struct Defs {
    alloc: Global,
    indexes: Vec<Field>,
    views: Vec<ViewDef>,
}

impl Model for Defs {
    ghost use Rattle.std.specs.Prelude.{◌≤◌, length};
    ghost use Rattle.mvd_rows.specs.Defs.{Definitions, definitions_code};

    ghost Value = { Definitions };

    ghost coded = { definitions_code };

    ghost view = { λ d. record { indexes = d.indexes.items; views = d.views.items } };

    ghost invariant = { λ d. (length d.indexes.items ≤ 16) × (length d.views.items ≤ 16) };
}

impl ViewDef {
    /// The same view.
    pub fn copy(&self, alloc: Global) -> Result<ViewDef, Refusal>
        ensures { IsAnswer result (Ok self.now) }
    {
        let name = self.name.copy(alloc)?;
        let group = self.group.copy(alloc)?;
        let sum = self.sum.copy(alloc)?;
        Ok(ViewDef { name, group, sum })
    }
}

fn has_index(indexes: &[Field], field: &Field) -> bool
    ensures { result ≡ has_index indexes.now field.now }
{
    indexes.iter().any(|other| field.text() == other.text())
}

fn has_view(views: &[ViewDef], name: &ViewName) -> bool
    ensures { result ≡ has_view views.now name.now }
{
    views.iter().any(|view| name.text() == view.name.text())
}

fn copy_fields(alloc: Global, fields: &[Field]) -> Result<Vec<Field>, Refusal>
    ensures copies { IfOk result (λ copies. copies.items ≡ fields.now) }
    ensures memory { IfErr result (λ refusal. refusal ≡ Refusal.Memory) }
{
    let mut copies = Vec::new(alloc);
    for field in fields {
        copies.push(field.copy(alloc)?)?;
    }
    Ok(copies)
}

fn copy_views(alloc: Global, views: &[ViewDef]) -> Result<Vec<ViewDef>, Refusal>
    ensures copies { IfOk result (λ copies. copies.items ≡ views.now) }
    ensures memory { IfErr result (λ refusal. refusal ≡ Refusal.Memory) }
{
    let mut copies = Vec::new(alloc);
    for view in views {
        copies.push(view.copy(alloc)?)?;
    }
    Ok(copies)
}

impl Defs {
    /// No index and no view.
    pub fn new(alloc: Global) -> Defs
        ensures { result ≡ no_definitions }
    {
        Defs {
            alloc,
            indexes: Vec::new(alloc),
            views: Vec::new(alloc),
        }
    }

    /// One more index. A second one of the field, and a seventeenth, is `BadDefs`. A refusal changes nothing.
    pub fn index(&mut self, field: Field) -> Result<(), Refusal>
        ensures ok { OnOk result (with_index self.old field ≡ Ok self.new) }
        ensures refused { IfErr result (λ refusal. refusal ≢ Refusal.Memory → with_index self.old field ≡ Err refusal) }
        ensures unchanged { OnErr result (self.new ≡ self.old) }
    {
        if has_index(&self.indexes, &field) || self.indexes.len() >= MOST {
            return Err(Refusal::BadDefs);
        }
        self.indexes.push(field)?;
        Ok(())
    }

    /// One more view: documents are grouped by the term at `group`, and the whole numbers at `sum` are added up.
    /// A second one of the name, and a seventeenth, is `BadDefs`. A refusal changes nothing.
    pub fn view(&mut self, name: ViewName, group: Field, sum: Field) -> Result<(), Refusal>
        ensures ok { OnOk result (with_view self.old (record { name = name; group = group; sum = sum }) ≡ Ok self.new) }
        ensures refused { IfErr result (λ refusal. refusal ≢ Refusal.Memory →
            with_view self.old (record { name = name; group = group; sum = sum }) ≡ Err refusal) }
        ensures unchanged { OnErr result (self.new ≡ self.old) }
    {
        let view = ViewDef { name, group, sum };
        if has_view(&self.views, &view.name) || self.views.len() >= MOST {
            return Err(Refusal::BadDefs);
        }
        self.views.push(view)?;
        Ok(())
    }

    /// The fields that have an index, in the order in which they came.
    pub fn indexes(&self) -> &[Field]
        ensures { result.now ≡ self.now.indexes }
    {
        &self.indexes
    }

    /// The views, in the order in which they came.
    pub fn views(&self) -> &[ViewDef]
        ensures { result.now ≡ self.now.views }
    {
        &self.views
    }

    /// The same definitions.
    pub fn copy(&self) -> Result<Defs, Refusal>
        ensures { IsAnswer result (Ok self.now) }
    {
        let indexes = copy_fields(self.alloc, &self.indexes)?;
        let views = copy_views(self.alloc, &self.views)?;
        Ok(Defs {
            alloc: self.alloc,
            indexes,
            views,
        })
    }
}
