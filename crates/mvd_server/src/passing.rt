//! Bytes between a client's socket and its connection.
ghost use Rattle.mvd_server.specs.Wires.{Carries, wired_of};

use crate::client::{Client, Moved, Piece};
use crate::sockets::Sockets;
use crate::talks::Talks;
use mvd_conn::{Front, front_of};

/// Reads once of a client of which more is wanted.
pub(crate) fn receive<K: Sockets>(
    talks: &mut Talks,
    sockets: &mut K,
    client: &mut Client<K>,
    piece: &mut Piece,
    due: u64,
)
    ensures { Carries K.Sockets (wired_of talks.old sockets.old) (wired_of talks.new sockets.new) }
{
    let number = K::number(&client.socket);
    if !talks.wants_input(number) {
        return;
    }
    match client.read(sockets, piece) {
        Moved::Bytes(count) => {
            client.deadline = due;
            talks.feed(number, piece.first(count));
            client.asks = asks(piece, count);
        }
        Moved::Nothing => {}
        Moved::End => talks.end_input(number),
        Moved::Failed => talks.fail_input(number),
    }
}

/// Reads once of one that is no client any more, and drops what came, which may be so many bytes. It is `false` where
/// nothing more is read.
pub(crate) fn drop_left<K: Sockets>(
    talks: &Talks,
    sockets: &mut K,
    client: &mut Client<K>,
    piece: &mut Piece,
    most: usize,
) -> bool
    ensures { Carries K.Sockets (wired_of talks.now sockets.old) (wired_of talks.now sockets.new) }
{
    if talks.has(K::number(&client.socket)) {
        return false;
    }
    client.drop_input(sockets, piece, most)
}

/// Writes once to a client of what waits.
pub(crate) fn send<K: Sockets>(talks: &mut Talks, sockets: &mut K, client: &mut Client<K>, due: u64)
    ensures { Carries K.Sockets (wired_of talks.old sockets.old) (wired_of talks.new sockets.new) }
{
    let number = K::number(&client.socket);
    let bytes = talks.waiting(number);
    if bytes.is_empty() {
        return;
    }
    match client.write(sockets, bytes) {
        Moved::Bytes(count) => {
            client.deadline = due;
            talks.sent(number, count);
        }
        Moved::Nothing => {}
        Moved::End => talks.fail_output(number),
        Moved::Failed => talks.fail_output(number),
    }
}

/// Whether the first bytes are one question, over HTTP or in a frame. The end of a longer frame may be taken for one:
/// that only moves when its client is answered.
fn asks(piece: &Piece, count: usize) -> bool {
    let bytes = piece.first(count);
    if bytes.starts_with(b"GET ") {
        return true;
    }
    // A Put, a Delete or a Push asks for a change.
    match front_of(bytes) {
        Front::Whole(size) => {
            size == bytes.len() && !matches!(bytes.get(4), Some(0x22 | 0x23 | 0x29))
        }
        Front::Part | Front::TooLong => false,
    }
}
