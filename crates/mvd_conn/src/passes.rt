//! The tokens that a server knows.
ghost use Rattle.std.specs.Prelude.{◌≡◌, ◌∷◌, ◌++◌, [], OnErr, OnOk, IfOk, option_copied};
ghost use Rattle.std.specs.Str.{bytes_eq};
ghost use Rattle.sha2.specs.Sha256.{sha256};
ghost use Rattle.mvd_conn.specs.Passes.{admits, grants, has_pass, pass_of, pass_of_digest, pass_shown, token_shown};

use crate::right::Right;
use sha2::{Digest, Sha256};
use std::alloc::{AllocError, Global};
use std::marker::Model;

/// The kind byte of a Hello.
const HELLO: u8 = 0x2D;

/// The most bytes of a token.
const TOKEN_MAX: usize = 256;

/// The SHA-256 of a token, and what it allows. Nothing else is kept of the token.
#[derive(Clone, Copy)]
pub struct Pass {
    pub digest: [u8; 32],
    pub right: Right,
}

impl Pass {
    /// Whether this is its token. All bytes of the two digests are compared, so that time tells nothing.
    pub fn admits(&self, token: &[u8]) -> bool
        ensures { result ≡ admits self.now token.now }
    {
        are_same(&digest_of(token), &self.digest)
    }
}

/// The passes of all tokens that are known.
#[derive(Drop)]
pub struct Passes {
    list: Vec<Pass>,
}

impl Model for Passes {
    ghost use Rattle.std.specs.Prelude.{List};
    ghost use Rattle.mvd_conn.specs.declared.passes.Pass.{Pass};

    ghost Value = { List Pass };

    ghost view = { λ p. p.list.items };
}

impl Passes {
    pub fn new(alloc: Global) -> Passes
        ensures { result ≡ [] }
    {
        Passes {
            list: Vec::new(alloc),
        }
    }

    /// Adds that of a token.
    pub fn add(&mut self, token: &[u8], right: Right) -> Result<(), AllocError>
        ensures added { OnOk result (self.new ≡
            self.old ++ record { digest = sha256 token.now; right = right } ∷ []) }
        ensures same { OnErr result (self.new ≡ self.old) }
    {
        let digest = digest_of(token);
        self.list.push(Pass { digest, right })?;
        Ok(())
    }

    pub fn copy(&self, alloc: Global) -> Result<Passes, AllocError>
        ensures { IfOk result (λ copy. copy ≡ self.now) }
    {
        let list = Vec::from_slice(alloc, &self.list)?;
        Ok(Passes { list })
    }

    /// The pass of a token, if it is known.
    pub fn of(&self, token: &[u8]) -> Option<&Pass>
        ensures { option_copied result ≡ pass_of self.now token.now }
    {
        pass_in(&self.list, &digest_of(token))
    }

    /// The pass of the token that a frame shows, if it is a Hello.
    pub(crate) fn shown(&self, kind: u8, payload: &[u8]) -> Option<&Pass>
        ensures { option_copied result ≡
            pass_shown self.now (record { kind = kind; payload = payload.now }) }
    {
        match shown_by(kind, payload) {
            Some(token) => self.of(token),
            None => None,
        }
    }

    /// Whether one of them has a right.
    pub fn grant(&self, right: &Right) -> bool
        ensures { result ≡ grants self.now right.now }
    {
        is_granted(&self.list, right)
    }

    /// Whether a pass is there still: its token is known, and allows the same.
    pub(crate) fn has(&self, pass: &Pass) -> bool
        ensures { result ≡ has_pass self.now pass.now }
    {
        match pass_in(&self.list, &pass.digest) {
            Some(other) => pass.right.is_same(&other.right),
            None => false,
        }
    }
}

/// Whether one of these passes has a right.
fn is_granted(passes: &[Pass], right: &Right) -> bool
    ensures { result ≡ grants passes.now right.now }
{
    for pass in passes {
        if right.is_same(&pass.right) {
            return true;
        }
    }
    false
}

/// The first of these passes that has a digest.
fn pass_in<'a>(passes: &'a [Pass], digest: &[u8; 32]) -> Option<&'a Pass>
    ensures { option_copied result ≡ pass_of_digest passes.now digest.now }
{
    for pass in passes {
        if are_same(digest, &pass.digest) {
            return Some(pass);
        }
    }
    None
}

/// The token that a frame shows, if it is a Hello.
pub(crate) fn shown_by(kind: u8, payload: &[u8]) -> Option<&[u8]>
    ensures { option_copied result ≡ token_shown (record { kind = kind; payload = payload.now }) }
{
    if kind != HELLO {
        return None;
    }
    match payload {
        [high, low, token @ ..] => {
            if usize::from(*high) * 256 + usize::from(*low) == token.len()
                && token.len() <= TOKEN_MAX
            {
                Some(token)
            } else {
                None
            }
        }
        _ => None,
    }
}

fn digest_of(token: &[u8]) -> [u8; 32]
    ensures { result ≡ sha256 token.now }
{
    let mut hasher = Sha256::new();
    hasher.update(token);
    hasher.finalize()
}

/// Whether two digests are the same. It compares all their bytes, also after two that differ.
fn are_same(first: &[u8; 32], second: &[u8; 32]) -> bool
    ensures { result ≡ bytes_eq first.now second.now }
{
    let mut same = true;
    for i in 0..32 {
        same &= first[i] == second[i];
    }
    same
}
