//! One sibling, in each index and in each view.
ghost use Rattle.std.specs.Prelude.{◌≡◌, ◌*◌, OnOk, IfErr, length, map};
ghost use Rattle.std.specs.List.{All};
ghost use Rattle.std.specs.FinMap as fin_map;
ghost use Rattle.mvd_dots.specs.declared.refusals.Refusal.TheVariants.{Memory};
ghost use Rattle.mvd_rows.specs.Changes.{before, moved};
ghost use Rattle.mvd_rows.specs.Counted.{Within};
ghost use Rattle.mvd_rows.specs.Stands.{IsIndexOf, IsViewOf, IsSmall, definition_of};
ghost use Rattle.mvd_rows.specs.Visible.{Visible};
ghost use Rattle.mvd_rows.specs.declared.marks.Spot.{Spot};

use crate::index::Index;
use crate::marks::Spot;
use crate::meters::Meter;
use crate::moves::Way;
use crate::views::View;
use mvd_docs::Parsed;
use mvd_dots::Refusal;
use std::alloc::Global;

pub(crate) fn change_places(
    alloc: Global,
    indexes: &mut Vec<Index>,
    way: Way,
    spot: &Spot,
    document: &Parsed,
    meter: &mut Meter,
) -> Result<(), Refusal>
    ensures places { OnOk result ((visible : Visible) → All (λ index. IsIndexOf index visible) indexes.old.items →
        fin_map.get visible spot.now ≡ before way document.now →
        All (λ index. IsIndexOf index (moved way visible spot.now document.now)) indexes.new.items) }
    ensures fields { OnOk result (map (λ index. index.field) indexes.new.items ≡
        map (λ index. index.field) indexes.old.items) }
    ensures len { length indexes.new.items ≡ length indexes.old.items }
    ensures memory { IfErr result (λ refusal. refusal ≡ Memory) }
    ensures counts { Within (length indexes.old.items) 0 meter.old meter.new }
{
    for index in indexes.iter_mut() {
        index.change(alloc, way, spot, document, meter)?;
    }
    Ok(())
}

pub(crate) fn change_rows(
    alloc: Global,
    views: &mut Vec<View>,
    way: Way,
    document: &Parsed,
    meter: &mut Meter,
) -> Result<(), Refusal>
    requires { (visible : Visible) × (spot : Spot) ×
        (All (λ view. IsViewOf view visible) views.old.items ×
        (IsSmall visible × (fin_map.get visible spot ≡ before way document.now))) }
    ensures rows { OnOk result ((visible : Visible) (spot : Spot) →
        All (λ view. IsViewOf view visible) views.old.items → fin_map.get visible spot ≡ before way document.now →
        All (λ view. IsViewOf view (moved way visible spot document.now)) views.new.items) }
    ensures fields { OnOk result (map definition_of views.new.items ≡ map definition_of views.old.items) }
    ensures len { length views.new.items ≡ length views.old.items }
    ensures memory { IfErr result (λ refusal. refusal ≡ Memory) }
    ensures counts { Within (2 * length views.old.items) (4 * length views.old.items) meter.old meter.new }
{
    for view in views.iter_mut() {
        view.change(alloc, way, document, meter)?;
    }
    Ok(())
}
