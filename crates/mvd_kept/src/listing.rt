//! The rows of the indexes and views, as a site is opened.
ghost use Rattle.std.specs.Prelude.{◌≡◌, ◌≤◌, ◌+◌, ◌*◌, IfErr, IfOk, IsTrue, length};
ghost use Rattle.std.specs.List.{AllByRecursion};
ghost use Rattle.std.specs.FinMap.{from_entries, is_sorted};
ghost use Rattle.mvd_dots.specs.declared.refusals.Refusal.TheVariants.{Memory};
ghost use Rattle.mvd_keys.specs.Key.{key_cmp};
ghost use Rattle.mvd_rows.specs.Changes.{looks_each, updates_each};
ghost use Rattle.mvd_rows.specs.Counted.{Within};
ghost use Rattle.mvd_rows.specs.Stands.{IsRowsOf};
ghost use Rattle.mvd_kept.specs.Costs.{all_siblings};
ghost use Rattle.mvd_kept.specs.Held.{IsHeldState};

use mvd_dots::Refusal;
use mvd_keys::{Key, KeyState};
use mvd_rows::{Defs, Meter, Rows};
use std::alloc::Global;

/// The rows of these definitions for just these states.
pub fn rows_of(
    alloc: Global,
    defs: &Defs,
    states: &[(Key, KeyState)],
    meter: &mut Meter,
) -> Result<Rows, Refusal>
    requires rising { IsTrue (is_sorted key_cmp states.now) }
    requires held { AllByRecursion (λ entry. IsHeldState entry.1) states.now }
    requires few { length states.now ≤ 1000000 }
    ensures rows { IfOk result (λ rows. IsRowsOf rows defs.now (from_entries states.now)) }
    ensures only { IfErr result (λ refusal. refusal ≡ Memory) }
    // The keys in conflict take one update more of each key.
    ensures counts { Within (all_siblings states.now * updates_each defs.now + length states.now)
        (all_siblings states.now * looks_each defs.now) meter.old meter.new }
{
    let empty = KeyState::empty(alloc);
    let mut rows = Rows::new(alloc, defs.copy()?)?;
    for entry in states {
        if rows.change(&entry.0, &empty, &entry.1, meter).is_err() {
            return Err(Refusal::Memory);
        }
    }
    Ok(rows)
}
