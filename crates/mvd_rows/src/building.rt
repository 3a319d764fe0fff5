//! Rows of no siblings.
ghost use Rattle.std.specs.Prelude.{◌≡◌, IfOk, IfErr, map};
ghost use Rattle.std.specs.FinMap.{empty};
ghost use Rattle.std.specs.List.{All};
ghost use Rattle.mvd_dots.specs.declared.refusals.Refusal.TheVariants.{Memory};
ghost use Rattle.mvd_rows.specs.Stands.{AreConflictsOf, IsIndexOf, IsRowsOf, IsViewOf, definition_of};

use crate::changes::Rows;
use crate::conflicts::Conflicts;
use crate::definitions::{Defs, ViewDef};
use crate::index::Index;
use crate::ordered_map::Kept;
use crate::tallies::Tallies;
use crate::views::View;
use mvd_docs::Field;
use mvd_dots::Refusal;
use std::alloc::Global;

impl Index {
    #[tactic(auto, using(crate::proofs::Nothing::no_places))]
    fn new(alloc: Global, field: Field) -> Index
        ensures field { result.field ≡ field }
        ensures places { IsIndexOf result empty }
    {
        Index {
            field,
            places: Kept::new(alloc),
        }
    }
}

impl View {
    fn new(alloc: Global, def: ViewDef) -> View
        ensures def { definition_of result ≡ def }
        ensures rows { IsViewOf result empty }
    {
        View {
            name: def.name,
            group: def.group,
            sum: def.sum,
            rows: Kept::new(alloc),
            tallies: Tallies {
                kept: Kept::new(alloc),
            },
        }
    }
}

impl Conflicts {
    #[tactic(auto, using(crate::proofs::InConflict::no_conflicts))]
    fn new(alloc: Global) -> Conflicts
        ensures { AreConflictsOf result empty }
    {
        Conflicts {
            keys: Kept::new(alloc),
        }
    }
}

fn new_indexes(alloc: Global, fields: &[Field]) -> Result<Vec<Index>, Refusal>
    ensures fields { IfOk result (λ indexes. map (λ index. index.field) indexes.items ≡ fields.now) }
    ensures places { IfOk result (λ indexes. All (λ index. IsIndexOf index empty) indexes.items) }
    ensures memory { IfErr result (λ refusal. refusal ≡ Memory) }
{
    let mut indexes = Vec::new(alloc);
    for field in fields {
        indexes.push(Index::new(alloc, field.copy(alloc)?))?;
    }
    Ok(indexes)
}

fn new_views(alloc: Global, defs: &[ViewDef]) -> Result<Vec<View>, Refusal>
    ensures defs { IfOk result (λ views. map definition_of views.items ≡ defs.now) }
    ensures rows { IfOk result (λ views. All (λ view. IsViewOf view empty) views.items) }
    ensures memory { IfErr result (λ refusal. refusal ≡ Memory) }
{
    let mut views = Vec::new(alloc);
    for def in defs {
        views.push(View::new(alloc, def.copy(alloc)?))?;
    }
    Ok(views)
}

impl Rows {
    /// The rows of these definitions, for a map with no keys. It is refused only for want of memory.
    #[tactic(auto, using(crate::proofs::Nothing::nothing_visible))]
    pub fn new(alloc: Global, defs: Defs) -> Result<Rows, Refusal>
        ensures stands { IfOk result (λ rows. IsRowsOf rows defs empty) }
        ensures memory { IfErr result (λ refusal. refusal ≡ Memory) }
    {
        let indexes = new_indexes(alloc, defs.indexes())?;
        let views = new_views(alloc, defs.views())?;
        Ok(Rows {
            alloc,
            indexes,
            views,
            conflicts: Conflicts::new(alloc),
        })
    }
}
