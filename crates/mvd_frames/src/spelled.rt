//! What options and lists are made of.
ghost use Rattle.std.specs.Prelude.{◌≡◌, ◌++◌, OnOk};
ghost use Rattle.mvd_wire.specs.Codec.{Gives, Codec};

use crate::lists::{key_count_at, key_entry_at, view_row_at};
use crate::row_writing::{
    write_key_count, write_key_entry, write_place, write_spot, write_term, write_view_row,
};
use crate::rows::{place_at, spot_at, term_at};
use mvd_docs::Term;
use mvd_dots::{Dot, Refusal};
use mvd_keys::{Key, Place};
use mvd_wire::{key_at, write_key};
use std::alloc::{AllocError, Global};

/// A value of a kind that is spelled.
pub trait Spelled: Sized {
    ghost kind: { Codec Self };

    /// Reads one at the front of a payload.
    fn read_at(alloc: Global, bytes: &[u8]) -> Result<(Self, &[u8]), Refusal>
        ensures { Gives (λ x. (x.0, x.1.now)) result (kind.read bytes.now) };

    /// Puts it at the end of what was written.
    fn put(&self, out: &mut Vec<u8>) -> Result<(), AllocError>
        ensures bytes { OnOk result (out.new.items ≡ out.old.items ++ kind.spell self.now) }
        ensures fits { OnOk result (kind.Fits self.now) };
}

impl Spelled for Key {
    ghost use Rattle.mvd_wire.specs.Codecs.{key};

    ghost kind = { key };

    fn read_at(alloc: Global, bytes: &[u8]) -> Result<(Key, &[u8]), Refusal> {
        key_at(alloc, bytes)
    }

    fn put(&self, out: &mut Vec<u8>) -> Result<(), AllocError> {
        write_key(out, self)
    }
}

impl Spelled for Term {
    ghost use Rattle.mvd_wire.specs.Rows.{term};

    ghost kind = { term };

    fn read_at(alloc: Global, bytes: &[u8]) -> Result<(Term, &[u8]), Refusal> {
        term_at(alloc, bytes)
    }

    fn put(&self, out: &mut Vec<u8>) -> Result<(), AllocError> {
        write_term(out, self)
    }
}

impl Spelled for Place {
    ghost use Rattle.mvd_wire.specs.Rows.{place};

    ghost kind = { place };

    fn read_at(alloc: Global, bytes: &[u8]) -> Result<(Place, &[u8]), Refusal> {
        place_at(alloc, bytes)
    }

    fn put(&self, out: &mut Vec<u8>) -> Result<(), AllocError> {
        write_place(out, self)
    }
}

impl Spelled for (Key, Dot) {
    ghost use Rattle.mvd_wire.specs.Rows.{spot_codec};

    ghost kind = { spot_codec };

    fn read_at(alloc: Global, bytes: &[u8]) -> Result<((Key, Dot), &[u8]), Refusal> {
        spot_at(alloc, bytes)
    }

    fn put(&self, out: &mut Vec<u8>) -> Result<(), AllocError> {
        write_spot(out, &self.0, self.1)
    }
}

impl Spelled for (Term, u64, i128, Option<(i64, i64)>) {
    ghost use Rattle.mvd_wire.specs.Rows.{view_row};

    ghost kind = { view_row };

    fn read_at(
        alloc: Global,
        bytes: &[u8],
    ) -> Result<((Term, u64, i128, Option<(i64, i64)>), &[u8]), Refusal> {
        view_row_at(alloc, bytes)
    }

    fn put(&self, out: &mut Vec<u8>) -> Result<(), AllocError> {
        write_view_row(out, self)
    }
}

impl Spelled for (Key, [u8; 32]) {
    ghost use Rattle.mvd_wire.specs.Rows.{key_entry};

    ghost kind = { key_entry };

    fn read_at(alloc: Global, bytes: &[u8]) -> Result<((Key, [u8; 32]), &[u8]), Refusal> {
        key_entry_at(alloc, bytes)
    }

    fn put(&self, out: &mut Vec<u8>) -> Result<(), AllocError> {
        write_key_entry(out, self)
    }
}

impl Spelled for (Key, u32) {
    ghost use Rattle.mvd_wire.specs.Rows.{key_count};

    ghost kind = { key_count };

    fn read_at(alloc: Global, bytes: &[u8]) -> Result<((Key, u32), &[u8]), Refusal> {
        key_count_at(alloc, bytes)
    }

    fn put(&self, out: &mut Vec<u8>) -> Result<(), AllocError> {
        write_key_count(out, self)
    }
}
