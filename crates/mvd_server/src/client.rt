//! One client's socket.
ghost use Rattle.std.specs.Prelude.{◌≡◌, ◌≤◌, IfOk, OnErr, length, take};
ghost use Rattle.mvd_server.specs.Moves.{GivesOne, IsMoved, ReadsOnce, MovesOne};

use crate::sockets::Sockets;
use mio::event::Event;
use std::alloc::{AllocError, Global};
use std::io::{self, ErrorKind};

/// The most bytes that are read at once.
pub(crate) const PIECE: usize = 65_536;

/// The most bytes of a client that are read and dropped after the last reply.
const DROPPED_MAX: usize = 1_048_576;

/// How a read or a write went.
#[derive(Clone, Copy)]
pub(crate) enum Moved {
    /// So many bytes moved.
    Bytes(usize),
    /// None moved: the socket is not ready.
    Nothing,
    /// No byte will move again.
    End,
    Failed,
}

/// How far a client is.
#[derive(Clone, Copy)]
pub(crate) enum Stage {
    /// Its frames are answered.
    Served,
    /// All replies have left. What it still sends is dropped, up to so many bytes.
    Left(usize),
}

/// A client's socket, and what is known of it.
#[derive(Drop)]
pub(crate) struct Client<K: Sockets> {
    /// It was taken over under the client's number, which may be that of one who is turned away.
    pub socket: K::Socket,
    /// Its number as it was accepted, counted from 1.
    pub ordinal: u64,
    pub stage: Stage,
    /// Something may be there to be read.
    pub readable: bool,
    /// Something may be taken that is written.
    pub writable: bool,
    /// The system told that the peer sends no more, so the end may come behind what is read.
    ends: bool,
    /// It stands in the list of those for which there may be something to do.
    pub listed: bool,
    /// What came last of it is one question.
    pub asks: bool,
    /// When it ends if no byte moves, and the time that is set for it, which is no later.
    pub deadline: u64,
    pub alarm: u64,
}

impl<K: Sockets> Client<K> {
    pub fn new(socket: K::Socket, ordinal: u64, deadline: u64) -> Client<K>
        ensures { result.socket ≡ socket }
    {
        Client {
            socket,
            ordinal,
            stage: Stage::Served,
            readable: true,
            writable: true,
            ends: false,
            listed: false,
            asks: false,
            deadline,
            alarm: deadline,
        }
    }

    /// Notes what the system told of the socket.
    pub fn note(&mut self, event: &Event) {
        let fails = event.is_error();
        self.ends = self.ends || fails || event.is_read_closed();
        self.readable = self.readable || self.ends || event.is_readable();
        self.writable = self.writable || fails || event.is_writable() || event.is_write_closed();
    }

    /// Whether the system told that the peer sends no more.
    pub fn has_left(&self) -> bool {
        self.ends
    }

    /// Reads once. Where less comes than there is room for, that was all: the system tells of what comes later.
    pub fn read(&mut self, sockets: &mut K, piece: &mut Piece) -> Moved
        ensures gives { GivesOne K.gave (K.number_of self.old.socket) result piece.new.bytes.items
            sockets.old sockets.new }
        ensures socket { self.new.socket ≡ self.old.socket }
    {
        let moved = moved_by(piece.read_from(sockets, &self.socket));
        match moved {
            Moved::Bytes(count) => self.readable = self.ends || count == PIECE,
            Moved::Nothing => self.readable = false,
            Moved::End | Moved::Failed => {}
        }
        moved
    }

    /// Writes once.
    pub fn write(&mut self, sockets: &mut K, bytes: &[u8]) -> Moved
        ensures takes { MovesOne K.took (K.number_of self.old.socket) result bytes.now sockets.old sockets.new }
        ensures socket { self.new.socket ≡ self.old.socket }
    {
        let moved = moved_by(sockets.write(&self.socket, bytes));
        if let Moved::Nothing = moved {
            self.writable = false;
        }
        moved
    }

    /// All replies have left: nothing more is written. It is `false` where the system refuses that.
    pub fn leave(&mut self) -> bool {
        self.stage = Stage::Left(DROPPED_MAX);
        self.readable = true;
        K::shut(&self.socket)
    }

    /// Reads once, and drops what came, which may be so many bytes. It is `false` where nothing more is read.
    pub fn drop_input(&mut self, sockets: &mut K, piece: &mut Piece, most: usize) -> bool
        ensures { ReadsOnce K.gave (K.number_of self.old.socket) sockets.old sockets.new }
    {
        match self.read(sockets, piece) {
            Moved::Bytes(count) if count < most => {
                self.stage = Stage::Left(most - count);
                true
            }
            Moved::Nothing => true,
            _ => false,
        }
    }
}

fn moved_by(count: io::Result<usize>) -> Moved
    ensures { IsMoved count result }
{
    match count {
        Ok(0) => Moved::End,
        Ok(count) => Moved::Bytes(count),
        Err(error) => match error.kind() {
            ErrorKind::WouldBlock => Moved::Nothing,
            _ => Moved::Failed,
        },
    }
}

/// Room for the bytes of one read.
#[derive(Drop)]
pub(crate) struct Piece {
    bytes: Vec<u8>,
    ghost few: { length bytes.items ≤ 65536 },
}

impl Piece {
    pub fn new(alloc: Global) -> Result<Piece, AllocError> {
        Ok(Piece {
            bytes: Vec::from_elem(alloc, 0, PIECE)?,
        })
    }

    fn read_from<K: Sockets>(&mut self, sockets: &mut K, socket: &K::Socket) -> io::Result<usize>
        ensures gave { IfOk result (λ n.
            K.gave sockets.old (K.number_of socket.now) (take n self.new.bytes.items) sockets.new) }
        ensures none { OnErr result (sockets.new ≡ sockets.old) }
    {
        sockets.read(socket, &mut self.bytes)
    }

    /// The first bytes.
    pub fn first(&self, count: usize) -> &[u8]
        ensures few { length result.now ≤ 65536 }
        ensures first { result.now ≡ take count self.now.bytes.items }
    {
        &self.bytes[..count.min(self.bytes.len())]
    }
}
