//! Keys with their states, as rows show them.
ghost use Rattle.std.specs.Prelude.{◌≡◌, ◌++◌, ◌∷◌, [], ◌⊎◌, true, IfOk, IfErr, OnOk, T};
ghost use Rattle.std.specs.Ordering.{nat_cmp};
ghost use Rattle.std.specs.Cmp.Lexicographic.{slice_cmp};
ghost use Rattle.std.specs.FinMap.{is_sorted};
ghost use Rattle.sqlite.specs.Order.{bytes, column};
ghost use Rattle.mvd_keys.specs.Key.{is_key};
ghost use Rattle.mvd_records.specs.States.{shown_row_entry};
ghost use Rattle.mvd_records.specs.Pairs.{pair_entries, IsPair, pairs_rise};

use mvd_dots::Refusal;
use mvd_keys::Key;
use sqlite::Row;
use sqlite::types::ValueRef;
use std::alloc::Global;

fn key_in(alloc: Global, row: &Row) -> Result<Key, Refusal>
    ensures ok { IfOk result (λ key. key ≡ bytes (column row.now 0)) }
    ensures form { IfOk result (λ key. is_key key ≡ true) }
    ensures damaged { IfErr result (λ e. e ≡ Refusal.Damaged → ¬ IsPair row.now) }
    ensures which { IfErr result (λ e. (e ≡ Refusal.Damaged) ⊎ (e ≡ Refusal.Memory)) }
{
    let Ok(ValueRef::Text(text)) = row.get_ref(0) else {
        return Err(Refusal::Damaged);
    };
    let Ok(text) = std::str::from_utf8(text) else {
        return Err(Refusal::Damaged);
    };
    match Key::read(alloc, text) {
        Ok(key) => {
            let _text = key.text();
            Ok(key)
        }
        Err(Refusal::Memory) => Err(Refusal::Memory),
        Err(_) => Err(Refusal::Damaged),
    }
}

fn bytes_in(alloc: Global, row: &Row) -> Result<Vec<u8>, Refusal>
    ensures ok { IfOk result (λ all. all.items ≡ bytes (column row.now 1)) }
    ensures damaged { IfErr result (λ e. e ≡ Refusal.Damaged → ¬ IsPair row.now) }
    ensures which { IfErr result (λ e. (e ≡ Refusal.Damaged) ⊎ (e ≡ Refusal.Memory)) }
{
    let Ok(ValueRef::Blob(bytes)) = row.get_ref(1) else {
        return Err(Refusal::Damaged);
    };
    match Vec::from_slice(alloc, bytes) {
        Ok(bytes) => Ok(bytes),
        Err(_) => Err(Refusal::Memory),
    }
}

/// Whether the key is greater than the last one.
fn is_above(pairs: &[(Key, Vec<u8>)], key: &Key) -> bool
    ensures { (state : _) → pairs_rise (pair_entries pairs.now) →
        is_sorted (slice_cmp nat_cmp) (pair_entries pairs.now ++ (key.now, state) ∷ []) ≡ result }
{
    match pairs.last() {
        None => true,
        Some(last) => last.0.text() < key.text(),
    }
}

/// Adds the key and the state that the row shows. It is refused where the row shows none, or the
/// key is not above the last.
pub fn push_row(alloc: Global, pairs: &mut Vec<(Key, Vec<u8>)>, row: &Row) -> Result<(), Refusal>
    ensures pushed { OnOk result
        (pair_entries pairs.new.items ≡ pair_entries pairs.old.items ++ shown_row_entry row.now ∷ []) }
    ensures form { OnOk result (is_key (bytes (column row.now 0)) ≡ true) }
    ensures rising { pairs_rise (pair_entries pairs.old.items)
        → OnOk result (pairs_rise (pair_entries pairs.new.items)) }
    ensures damaged { pairs_rise (pair_entries pairs.old.items)
        → IfErr result (λ e. e ≡ Refusal.Damaged → IsPair row.now →
        ¬ pairs_rise (pair_entries pairs.old.items ++ shown_row_entry row.now ∷ [])) }
    ensures which { IfErr result (λ e. (e ≡ Refusal.Damaged) ⊎ (e ≡ Refusal.Memory)) }
{
    let key = key_in(alloc, row)?;
    let bytes = bytes_in(alloc, row)?;
    if !is_above(pairs, &key) {
        return Err(Refusal::Damaged);
    }
    match pairs.push((key, bytes)) {
        Ok(()) => Ok(()),
        Err(_) => Err(Refusal::Memory),
    }
}
