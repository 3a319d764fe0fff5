//! Short replies, whose frames take no memory.
ghost use Rattle.std.specs.Prelude.{◌≡◌, ◌≤◌, List, ℕ, take, false, true, MatchOption};
ghost use Rattle.mvd_dots.specs.Dot.{IsDot};
ghost use Rattle.mvd_wire.specs.Replies.{is_short, reply_bytes};
ghost use Rattle.mvd_wire.specs.declared.reply.Reply.TheVariants as reply_of;

use mvd_dots::{Dot, Refusal};
use mvd_wire::Reply;
use std::marker::Model;

/// The whole frame of a short reply, in a fixed array.
#[derive(Drop)]
pub struct Short {
    bytes: [u8; 17],
    len: usize,
}

impl Model for Short {
    ghost Value = { List ℕ };

    ghost view = { λ s. take s.len s.bytes };

    ghost invariant = { λ s. s.len ≤ 17 };
}

impl Short {
    pub fn bytes(&self) -> &[u8]
        ensures { result.now ≡ self.now }
    {
        &self.bytes[..self.len]
    }

    /// The frame of a Written.
    #[tactic(auto, unfolding(mvd_wire::specs::Codecs::dot, mvd_wire::specs::Codec::number))]
    pub fn written(dot: Dot) -> Short
        ensures frame { result ≡ reply_bytes (reply_of.Written dot) }
        ensures valid { IsDot dot }
    {
        let [a, b, c, d] = dot.site().to_be_bytes();
        let [e, f, g, h, i, j, k, l] = dot.counter().to_be_bytes();
        Short {
            bytes: [0, 0, 0, 13, 0xA2, a, b, c, d, e, f, g, h, i, j, k, l],
            len: 17,
        }
    }

    /// The frame of a Done.
    #[tactic(auto, unfolding(mvd_wire::specs::Codec::number))]
    pub fn done() -> Short
        ensures { result ≡ reply_bytes reply_of.Done }
    {
        let mut bytes = [0; 17];
        bytes[3] = 1;
        bytes[4] = 0xA3;
        Short { bytes, len: 5 }
    }

    /// The frame of a Refused.
    #[tactic(auto, unfolding(mvd_wire::specs::Codec::number, mvd_wire::specs::Replies::refusal))]
    pub fn refused(refusal: Refusal) -> Short
        ensures { result ≡ reply_bytes (reply_of.Refused refusal) }
    {
        let mut bytes = [0; 17];
        bytes[3] = 2;
        bytes[4] = 0xEE;
        bytes[5] = refusal.number();
        Short { bytes, len: 6 }
    }
}

/// The frame of a reply that has a short one: a Written, a Done or a Refused.
pub fn short_reply(reply: &Reply) -> Option<Short>
    ensures { MatchOption result (is_short reply.now ≡ false)
        (λ s. (is_short reply.now ≡ true) × (s ≡ reply_bytes reply.now)) }
{
    match reply {
        Reply::State(_)
        | Reply::Places(_, _)
        | Reply::Row(_)
        | Reply::Rows(_, _)
        | Reply::Digests(_)
        | Reply::Keys(_, _)
        | Reply::Counts(_, _) => None,
        Reply::Written(dot) => Some(Short::written(*dot)),
        Reply::Done => Some(Short::done()),
        Reply::Refused(refusal) => Some(Short::refused(*refusal)),
    }
}
