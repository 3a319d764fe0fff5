//! How long spellings are. Nothing here takes memory.
ghost use Rattle.std.specs.Prelude.{◌≡◌, ◌≤◌, ◌-◌, ◌^◌, min, length};
ghost use Rattle.std.specs.List.{All, flat_map};
ghost use Rattle.mvd_dots.specs.Context.{AreInRange};
ghost use Rattle.mvd_keys.specs.State.{pair_of, pairs_of};
ghost use Rattle.mvd_wire.specs.Codec.{Codec};
ghost use Rattle.mvd_wire.specs.Codecs.{layout2, context_codec, document, spell_entry, spell_sibling, spell_state};
ghost use Rattle.mvd_wire.specs.Codecs.{state_codec as spelled, state_limit};

use mvd_dots::{Context, Entry};
use mvd_keys::{KeyState, Sibling};

/// Twelve bytes of the dot, four of the length, and the text.
fn sibling_length(sibling: &Sibling) -> u64
    ensures length { result ≡ min (length (spell_sibling (pair_of sibling.now))) (2 ^ 64 - 1) }
    ensures fits { document.Fits sibling.now.document }
{
    (sibling.document.text().len() as u64).saturating_add(16)
}

fn siblings_length(siblings: &[Sibling]) -> u64
    ensures length { result ≡ min (length (flat_map spell_sibling (pairs_of siblings.now))) (2 ^ 64 - 1) }
    ensures fit { All (λ s. document.Fits s.document) siblings.now }
{
    let mut total: u64 = 0;
    for sibling in siblings {
        total = total.saturating_add(sibling_length(sibling));
    }
    total
}

/// Four bytes of the site, eight of the base, four of the number, and eight for each loose counter.
fn entry_length(entry: &Entry) -> u64
    ensures { result ≡ min (length (spell_entry entry.now)) (2 ^ 64 - 1) }
{
    let loose = entry.loose.as_slice();
    (loose.len() as u64).saturating_mul(8).saturating_add(16)
}

fn entries_length(entries: &[Entry]) -> u64
    ensures { result ≡ min (length (flat_map spell_entry entries.now)) (2 ^ 64 - 1) }
{
    let mut total: u64 = 0;
    for entry in entries {
        total = total.saturating_add(entry_length(entry));
    }
    total
}

fn context_length(value: &Context) -> u64
    ensures length { result ≡ min (length ((context_codec layout2).spell value.now)) (2 ^ 64 - 1) }
    ensures in_range { AreInRange value.now }
{
    entries_length(value.entries()).saturating_add(4)
}

/// How many bytes the state's spelling has, or the greatest number where it has more.
pub fn state_length(state: &KeyState) -> u64
    ensures length { result ≡ min (length (spell_state state.now)) (2 ^ 64 - 1) }
    // A state that is not too long has a spelling, which is read again.
    ensures fits { length (spell_state state.now) ≤ state_limit → (spelled layout2).Fits state.now }
{
    context_length(state.context())
        .saturating_add(2)
        .saturating_add(siblings_length(state.siblings()))
}
