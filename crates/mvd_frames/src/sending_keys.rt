//! Whole frames of questions for keys, and of a Hello.
ghost use Rattle.std.specs.Prelude.{◌≡◌, ◌++◌, Ok, IfOk, OnOk};
ghost use Rattle.mvd_wire.specs.Codec.{Gives, Codec};
ghost use Rattle.mvd_wire.specs.Requests.{IsRequest, bucket, keys_of_prefix, request_bytes, request_frame};
ghost use Rattle.mvd_wire.specs.declared.request.Request.TheVariants as asked;

use crate::row_writing::write_path;
use crate::sending::{head_of, head_with_room, measured};
use crate::spelled_lists::write_optional;
use mvd_dots::Refusal;
use mvd_keys::{Key, Path};
use mvd_wire::{Prefix, Token, write_prefix, write_token};
use std::alloc::{AllocError, Global};

#[tactic(auto, unfolding(mvd_wire::specs::Requests::bucket))]
fn write_bucket(out: &mut Vec<u8>, path: &Path, after: &Option<Key>) -> Result<(), AllocError>
    ensures bytes { OnOk result (out.new.items ≡ out.old.items ++ bucket.spell (path.now, after.now)) }
    ensures fits { OnOk result (bucket.Fits (path.now, after.now)) }
{
    write_path(out, path)?;
    write_optional(out, after)?;
    Ok(())
}

/// The whole frame of a Bucket.
pub fn encode_bucket(alloc: Global, path: &Path, after: &Option<Key>) -> Result<Vec<u8>, Refusal>
    ensures exact { Gives (λ v. v.items) result (request_frame (asked.Bucket path.now after.now)) }
    ensures fits { IfOk result (λ _. IsRequest (asked.Bucket path.now after.now)) }
{
    let mut frame = head_of(alloc, 0x28)?;
    write_bucket(&mut frame, path, after)?;
    measured(frame)
}

#[tactic(auto, unfolding(mvd_wire::specs::Requests::keys_of_prefix))]
fn write_keys_asked(
    out: &mut Vec<u8>,
    prefix: &Prefix,
    after: &Option<Key>,
) -> Result<(), AllocError>
    ensures bytes { OnOk result (out.new.items ≡ out.old.items ++ keys_of_prefix.spell (prefix.now, after.now)) }
    ensures fits { OnOk result (keys_of_prefix.Fits (prefix.now, after.now)) }
{
    write_prefix(out, prefix)?;
    write_optional(out, after)?;
    Ok(())
}

/// The whole frame of a Keys.
pub fn encode_keys(alloc: Global, prefix: &Prefix, after: &Option<Key>) -> Result<Vec<u8>, Refusal>
    ensures exact { Gives (λ v. v.items) result (request_frame (asked.Keys prefix.now after.now)) }
    ensures fits { IfOk result (λ _. IsRequest (asked.Keys prefix.now after.now)) }
{
    let mut frame = head_of(alloc, 0x2B)?;
    write_keys_asked(&mut frame, prefix, after)?;
    measured(frame)
}

/// The whole frame of a Conflicts.
pub fn encode_conflicts(alloc: Global, after: &Option<Key>) -> Result<Vec<u8>, Refusal>
    ensures exact { Gives (λ v. v.items) result (request_frame (asked.Conflicts after.now)) }
    ensures fits { IfOk result (λ _. IsRequest (asked.Conflicts after.now)) }
{
    let mut frame = head_of(alloc, 0x2C)?;
    write_optional(&mut frame, after)?;
    measured(frame)
}

/// The whole frame of a Hello, which is never too long.
pub fn encode_hello(alloc: Global, token: &Token) -> Result<Vec<u8>, Refusal>
    ensures exact { Gives (λ v. v.items) result (request_frame (asked.Hello token.now)) }
    ensures fits { IfOk result (λ _. IsRequest (asked.Hello token.now)) }
    ensures short { request_frame (asked.Hello token.now) ≡ Ok (request_bytes (asked.Hello token.now)) }
{
    let mut frame = head_with_room(alloc, 0x2D, token.bytes().len() + 2)?;
    write_token(&mut frame, token)?;
    measured(frame)
}
