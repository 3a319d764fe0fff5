//! What a request comes to, before anything is changed.
ghost use Rattle.std.specs.Prelude.{◌≡◌, ◌≤◌, IfErr, IfOk, length};
ghost use Rattle.mvd_wire.specs.Codecs.{spell_state, state_limit};
ghost use Rattle.mvd_kept.specs.Change.{SpellsChange, change_reply};

use mvd_dots::{Dot, Refusal};
use mvd_keys::{Key, KeyState};
use mvd_tree::{Hashed, key_digest};
use mvd_wire::{Reply, state_length, write_key, write_state};
use std::alloc::Global;
use std::marker::Model;

/// A change of one key, ready to be stored and installed, with its state's spelling.
#[derive(Drop)]
pub struct Change {
    key: Key,
    state: KeyState,
    key_length: usize,
    spelled: Vec<u8>,
    dot: Option<Dot>,
    was_held: bool,
}

impl Model for Change {
    ghost use Rattle.mvd_kept.specs.Change.{ChangeValue, SpellsChange, change_code};

    ghost Value = { ChangeValue };

    ghost coded = { change_code };

    ghost view = { λ c. record { key = c.key; state = c.state; dot = c.dot; was_held = c.was_held } };

    ghost invariant = { λ c. SpellsChange c.key c.state c.key_length c.spelled.items };
}

impl Change {
    ghost use Rattle.std.specs.Prelude.{◌≡◌, ◌≤◌, Ok, false, length};
    ghost use Rattle.mvd_dots.specs.Answer.{IsAnswer};
    ghost use Rattle.mvd_digest.specs.Counted.{Hashes};
    ghost use Rattle.mvd_tree.specs.States.{key_digest};
    ghost use Rattle.mvd_wire.specs.Codecs.{spell_state, state_limit, IsInForm};
    ghost use Rattle.mvd_kept.specs.Answer.{is_too_large, spelled};

    /// The change that gives the key this state, by a put of this dot if it is one.
    pub(crate) fn new(
        alloc: Global,
        key: &Key,
        was_held: bool,
        state: KeyState,
        dot: Option<Dot>,
    ) -> Result<Change, Refusal>
        requires { length (spell_state state) ≤ state_limit }
        ensures { IsAnswer result (Ok (record { key = key.now; state = state; dot = dot; was_held = was_held })) }
    {
        let key = key.copy(alloc)?;
        let (key_length, spelled) = spelled_key_state(alloc, &key, &state)?;
        Ok(Change {
            key,
            state,
            key_length,
            spelled,
            dot,
            was_held,
        })
    }

    pub fn key(&self) -> &Key
        ensures { result.now ≡ self.now.key }
    {
        &self.key
    }

    /// The state that the key is to have. It has a spelling, so its bytes decode to it again, and that is not too long.
    pub fn state(&self) -> &KeyState
        ensures state { result.now ≡ self.now.state }
        ensures spelled { IsInForm self.now.state }
        ensures short { is_too_large self.now.state ≡ false }
    {
        &self.state
    }

    /// Whether the key is held before the change is put in: by the site that prepared it, or by a change before it.
    pub fn was_held(&self) -> bool
        ensures { result ≡ self.now.was_held }
    {
        self.was_held
    }

    /// The spelling of that state.
    pub fn bytes(&self) -> &[u8]
        ensures { result.now ≡ spell_state self.now.state }
    {
        &self.spelled[self.key_length..]
    }

    /// The digest of the key in that state.
    pub(crate) fn digest(&self, hashed: &mut Hashed) -> [u8; 32]
        ensures digest { result ≡ key_digest spelled self.now.key self.now.state }
        ensures counts { Hashes 1 (length (spelled self.now.key self.now.state)) hashed.old hashed.new }
    {
        key_digest(&self.spelled, hashed)
    }

    /// The reply once the change is made: `Written` for a put, `Done` for a delete or a push.
    pub fn reply(&self) -> Reply
        ensures { result ≡ change_reply self.now.dot }
    {
        reply_of(self.dot)
    }

    /// The key and the state.
    pub(crate) fn into_parts(self) -> (Key, KeyState)
        ensures key { result.0 ≡ self.key }
        ensures state { result.1 ≡ self.state }
        ensures spelled { IsInForm self.state }
    {
        (self.key, self.state)
    }
}

/// The most bytes that a key's spelling has.
const KEY_SPELLED_MAX: usize = 129;

/// A key and a state of at most 1,150,000 bytes as they are spelled, one after the other, and where the state begins.
pub(crate) fn spelled_key_state(
    alloc: Global,
    key: &Key,
    state: &KeyState,
) -> Result<(usize, Vec<u8>), Refusal>
    requires { length (spell_state state.now) ≤ state_limit }
    ensures spells { IfOk result (λ r. SpellsChange key.now state.now r.0 r.1.items) }
    ensures only { IfErr result (λ refusal. refusal ≡ Refusal.Memory) }
{
    let length = state_length(state) as usize;
    let mut bytes = Vec::with_capacity(alloc, KEY_SPELLED_MAX + length)?;
    write_key(&mut bytes, key)?;
    let key_length = bytes.len();
    write_state(&mut bytes, state)?;
    Ok((key_length, bytes))
}

/// A put is answered with its dot, and a delete or a push is done.
pub(crate) fn reply_of(dot: Option<Dot>) -> Reply
    ensures { result ≡ change_reply dot }
{
    match dot {
        Some(dot) => Reply::Written(dot),
        None => Reply::Done,
    }
}

/// What a request comes to: an answer with nothing to change, or a change.
#[derive(Drop)]
pub enum Prepared {
    Answer(Reply),
    Change(Change),
}
