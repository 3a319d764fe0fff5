//! Keys and the states of keys, spelled.
ghost use Rattle.std.specs.Prelude.{Ok, IfOk};
ghost use Rattle.mvd_wire.specs.Codec.{Gives, Codec, Spells, spelled_within};
ghost use Rattle.mvd_wire.specs.Codecs.{layout2, key, state_codec, state_limit};

use crate::lengths::state_length;
use crate::limits::STATE_LIMIT;
use crate::writing::{write_key, write_state};
use mvd_dots::Refusal;
use mvd_keys::{Key, KeyState};
use std::alloc::Global;

/// The one spelling of a key.
pub fn encode_key(alloc: Global, value: &Key) -> Result<Vec<u8>, Refusal>
    ensures exact { Gives (λ v. v.items) result (Ok (key.spell value.now)) }
    ensures spells { IfOk result (λ v. Spells key value.now v.items) }
{
    let mut out = Vec::new(alloc);
    write_key(&mut out, value)?;
    Ok(out)
}

/// The one spelling of a state, of at most 1,150,000 bytes.
pub fn encode_state(alloc: Global, value: &KeyState) -> Result<Vec<u8>, Refusal>
    ensures exact { Gives (λ v. v.items) result
        (spelled_within Refusal.StateTooLarge state_limit (state_codec layout2) value.now) }
    ensures spells { IfOk result (λ v. Spells (state_codec layout2) value.now v.items) }
{
    if state_length(value) > STATE_LIMIT {
        return Err(Refusal::StateTooLarge);
    }
    let mut out = Vec::new(alloc);
    write_state(&mut out, value)?;
    Ok(out)
}
