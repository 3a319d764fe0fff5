//! What changed, where each key may be told in its state.
ghost use Rattle.std.specs.Prelude.{◌≡◌, ◌++◌, [], IfErr, IfOk, OnOk, string_bytes, true};
ghost use Rattle.mvd_http.specs.Followed.{changed_states_text, changed_text, state_or_later, states_text};
ghost use Rattle.mvd_http.specs.Listed.{IsUntold};

use crate::documents::push_state;
use crate::json_words::{push_digest, push_word};
use crate::listed::{Holds, push_comma};
use crate::question::Spelling;
use crate::server_told::push_changes;
use crate::told_lines::push_later_key;
use mvd_dots::Refusal;
use mvd_keys::Key;
use std::alloc::Global;

/// So many bytes of states are told; then states are to be asked again.
const TOLD_MAX: usize = 1_048_576;

/// The root at a moment, with the keys that changed up to it, behind what `out` holds. Each may be told in its state.
pub fn push_changed<H: Holds>(
    alloc: Global,
    held: &H,
    states: Option<Spelling>,
    root: [u8; 32],
    keys: &[Key],
    out: &mut String,
) -> Result<(), Refusal>
    ensures text { OnOk result (string_bytes out.new ≡
        string_bytes out.old ++ changed_text (H.states held.now) states root keys.now) }
    ensures refused { IfErr result (IsUntold (H.refusal held.now)) }
{
    match states {
        Some(spelling) => push_changed_states(alloc, held, spelling, root, keys, out),
        None => push_changes(alloc, out, root, keys, false),
    }
}

fn push_changed_states<H: Holds>(
    alloc: Global,
    held: &H,
    spelling: Spelling,
    root: [u8; 32],
    keys: &[Key],
    out: &mut String,
) -> Result<(), Refusal>
    ensures text { OnOk result (string_bytes out.new ≡
        string_bytes out.old ++ changed_states_text (H.states held.now) spelling root keys.now) }
    ensures refused { IfErr result (IsUntold (H.refusal held.now)) }
{
    push_word(out, "{\"root\":")?;
    push_digest(alloc, out, root)?;
    push_word(out, ",\"keys\":[")?;
    let states = states_of(alloc, held, spelling, keys)?;
    push_word(out, states.as_str())?;
    Ok(push_word(out, "],\"resync\":false}")?)
}

/// The states of keys, with commas between them.
fn states_of<H: Holds>(
    alloc: Global,
    held: &H,
    spelling: Spelling,
    keys: &[Key],
) -> Result<String, Refusal>
    ensures text { IfOk result (λ text. string_bytes text ≡
        states_text (H.states held.now) spelling true [] keys.now) }
    ensures refused { IfErr result (IsUntold (H.refusal held.now)) }
{
    let mut told = String::new(alloc);
    let mut is_first = true;
    for key in keys {
        push_comma(&mut told, is_first)?;
        push_state_or_later(alloc, held, spelling, key, &mut told)?;
        is_first = false;
    }
    Ok(told)
}

/// The state of a key, or that it is to be asked again, behind what is told.
fn push_state_or_later<H: Holds>(
    alloc: Global,
    held: &H,
    spelling: Spelling,
    key: &Key,
    told: &mut String,
) -> Result<(), Refusal>
    ensures text { OnOk result (string_bytes told.new ≡
        string_bytes told.old ++ state_or_later (H.states held.now) spelling (string_bytes told.old) key.now) }
    ensures refused { IfErr result (IsUntold (H.refusal held.now)) }
{
    if told.len() >= TOLD_MAX {
        return push_later_key(alloc, key, told);
    }
    push_state(alloc, key, spelling, &held.state_of(key)?, told)
}
