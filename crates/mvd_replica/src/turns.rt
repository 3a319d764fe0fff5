//! One frame of a connection.
ghost use Rattle.std.specs.Prelude.{◌≡◌, if◌then◌else◌, true, false};
ghost use Rattle.mvd_dots.specs.declared.refusals.Refusal.TheVariants.{Broken};
ghost use Rattle.mvd_wire.specs.declared.request.Request.TheVariants.{Bye};
ghost use Rattle.mvd_wire.specs.declared.reply.Reply.TheVariants.{Done, Refused};
ghost use Rattle.mvd_wire.specs.Replies.{CanBeSent, reply_bytes};
ghost use Rattle.mvd_replica.specs.Served.{conversation_of};
ghost use Rattle.mvd_replica.specs.Steps.{AnswersFrame, FollowsFrame, LeavesFrame, SendsReply, StopsWith, TakesTurn};

use crate::replica::Replica;
use crate::serving::Ended;
use mvd_dots::Refusal;
use mvd_frames::{Short, decode_request, encode_reply, read_frame, short_reply, write_frame};
use mvd_wire::{Frame, Reply, Request};
use sqlite::Alter;
use std::alloc::Global;
use std::io::{Read, Write};

/// Writes a Refused at the end of a connection, which ends with it, or with the writer's failure.
pub fn stop<W: Write>(writer: &mut W, refusal: Refusal) -> Refusal
    ensures { StopsWith (W.contents writer.old) refusal result (W.contents writer.new) }
{
    match write_frame(writer, Short::refused(refusal).bytes()) {
        Ok(()) => refusal,
        Err(failed) => failed,
    }
}

/// Writes a reply, or want of memory in its place.
fn send<W: Write>(alloc: Global, writer: &mut W, reply: &Reply) -> Result<(), Refusal>
    requires { CanBeSent reply.now }
    ensures { SendsReply (W.contents writer.old) reply.now result (W.contents writer.new) }
{
    if let Some(short) = short_reply(reply) {
        return write_frame(writer, short.bytes());
    }
    match encode_reply(alloc, reply) {
        Ok(bytes) => write_frame(writer, &bytes),
        Err(refusal) => write_frame(writer, Short::refused(refusal).bytes()),
    }
}

/// The frame that answers a Bye.
fn last(broken: bool) -> Short
    ensures { result ≡ reply_bytes (if broken then Refused Broken else Done) }
{
    if broken {
        Short::refused(Refusal::Broken)
    } else {
        Short::done()
    }
}

fn is_bye(request: &Request) -> bool
    ensures yes { result ≡ true → request.now ≡ Bye }
    ensures no { result ≡ false → request.now ≡ Bye → ⊥ }
{
    match request {
        Request::Bye => true,
        _ => false,
    }
}

/// Answers a frame. It is `None` for a Bye.
fn reply_to<S: Alter>(alloc: Global, replica: &mut Replica<S>, frame: &Frame) -> Option<Reply>
    ensures told { AnswersFrame replica.old frame.now result replica.new }
    ensures follows { FollowsFrame replica.old frame.now replica.new }
    ensures leaves { LeavesFrame replica.old frame.now result replica.new }
{
    let request = match decode_request(alloc, frame.kind, &frame.payload) {
        Ok(request) => request,
        Err(refusal) => return Some(Reply::Refused(refusal)),
    };
    if is_bye(&request) {
        return None;
    }
    replica.stands();
    Some(replica.answer(&request))
}

/// Reads a frame, answers it and writes the reply. It is `None` where the connection goes on.
pub fn take_turn<R: Read, W: Write, S: Alter>(
    alloc: Global,
    reader: &mut R,
    writer: &mut W,
    replica: &mut Replica<S>,
) -> Result<Option<Ended>, Refusal>
    ensures { TakesTurn
        (conversation_of replica.old (R.remaining reader.old) (W.contents writer.old))
        (conversation_of replica.new (R.remaining reader.new) (W.contents writer.new)) result }
{
    let frame = match read_frame(alloc, reader) {
        Ok(Some(frame)) => frame,
        Ok(None) => return Ok(Some(Ended::End)),
        Err(refusal) => {
            let stopped = stop(writer, refusal);
            return Err(stopped);
        }
    };
    match reply_to(alloc, replica, &frame) {
        None => {
            let last = last(replica.is_broken());
            match write_frame(writer, last.bytes()) {
                Ok(()) => return Ok(Some(Ended::Bye)),
                Err(failed) => return Err(failed),
            }
        }
        Some(reply) => match send(alloc, writer, &reply) {
            Ok(()) => return Ok(None),
            Err(failed) => return Err(failed),
        },
    }
}
