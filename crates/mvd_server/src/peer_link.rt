//! A connection with a peer, which this server opened.
ghost use Rattle.std.specs.Prelude.{◌≡◌, ◌<◌, IfOk, false, true};
ghost use Rattle.mvd_meet.specs.Callers.{came_at};
ghost use Rattle.mvd_meet.specs.Loans.{over_at};
ghost use Rattle.mvd_server.specs.PeerLinks.{IsUnaskedFar, MovesBytes, is_rest};

use crate::client::{Client, Moved, Piece};
use crate::sockets::{Direct, Sockets};
use mio::event::Event;
use mio::net::TcpStream;
use mio::{Registry, Token};
use mvd_dots::Refusal;
use mvd_meet::{Caller, Loan};
use std::alloc::Global;
use std::io;
use std::net::{Net, SocketAddr};

/// The most reads of it, and writes to it, before others have their turn.
const MOVES: usize = 16;

/// The most milliseconds that a peer has to answer a Bye.
const LINGER: u64 = 2_000;

/// The milliseconds without a byte after which a peer holds no place that others wait for.
const LULL: u64 = 1_000;

/// How far a connection is.
#[derive(Clone, Copy, PartialEq, Eq)]
pub(crate) enum Stage {
    /// It is not known whether it is connected.
    Connects,
    /// The token was shown.
    Greets,
    /// Nothing is asked.
    Rests,
    /// A session goes on.
    Meets,
    /// A Bye was said.
    Parts,
}

/// The socket, and the side that is asked over it. All times are in milliseconds since the server's start.
#[derive(Drop)]
pub(crate) struct PeerLink {
    socket: Client<Direct>,
    pub stage: Stage,
    pub far: Caller,
    /// A session went on over it before.
    pub is_kept: bool,
    /// A byte came since this was unset.
    pub has_heard: bool,
    /// The place that its session has, or had last.
    pub loan: Loan,
    /// The session gave its place up, and nothing is read until it has one again.
    pub is_held: bool,
    /// For as many milliseconds no byte need move.
    idle: u64,
    /// When a byte moved last, or else something was asked, or its session got a place.
    pub moved: u64,
}

impl PeerLink {
    /// Begins to connect.
    pub fn open<N: Net>(
        rt: &N,
        alloc: Global,
        registry: &Registry,
        token: Token,
        address: SocketAddr,
        idle: u64,
        now: u64,
    ) -> io::Result<PeerLink>
        ensures { IfOk result (λ link. IsUnaskedFar link.far × (link.stage ≡ Stage.Connects)) }
    {
        let stream = TcpStream::connect(rt, address)?;
        let taken = Direct {}.take_over(registry, token.0 as u64, stream)?;
        let mut socket = Client::<Direct>::new(taken, 0, now);
        socket.readable = false;
        socket.writable = false;
        Ok(PeerLink {
            socket,
            stage: Stage::Connects,
            far: Caller::new(alloc),
            is_kept: false,
            has_heard: false,
            loan: Loan::new(now),
            is_held: false,
            idle,
            moved: now,
        })
    }

    /// Notes what the system told of the socket.
    pub fn note(&mut self, event: &Event)
        ensures { self.new ≡ record self.old { socket = self.new.socket } }
    {
        self.socket.note(event);
    }

    /// Whether it is connected. It is `false` as long as that is not known.
    pub fn is_connected(&self) -> Result<bool, Refusal> {
        if !self.socket.writable {
            return Ok(false);
        }
        if self.socket.socket.begins() {
            Ok(true)
        } else {
            Err(Refusal::ReadFailed)
        }
    }

    /// Whether nothing is asked over it.
    pub fn is_resting(&self) -> bool
        ensures { result ≡ is_rest self.now.stage }
    {
        match self.stage {
            Stage::Rests => true,
            Stage::Connects | Stage::Greets | Stage::Meets | Stage::Parts => false,
        }
    }

    /// Whether bytes may have come that wait until the session has a place again.
    pub fn is_unread(&self) -> bool {
        self.is_held && self.socket.readable && !self.far.has_all()
    }

    /// Its session has a place from now on. It is not to blame for the time before.
    pub fn lend(&mut self, now: u64)
        ensures loan { self.new.loan ≡ record { since = now; mark = now; moved = 0 } }
        ensures reads { self.new.is_held ≡ false }
        ensures far { self.new.far ≡ self.old.far }
    {
        self.loan = Loan::new(now);
        self.is_held = false;
        self.moved = now;
    }

    /// Whether something is awaited of the peer, or is to leave to it. A peer whose bytes wait is not waited for.
    pub fn is_open(&self) -> bool {
        match self.stage {
            Stage::Connects => true,
            Stage::Rests => false,
            Stage::Greets | Stage::Meets | Stage::Parts => {
                !self.is_unread() && (!self.far.has_all() || !self.far.leaving().is_empty())
            }
        }
    }

    /// Whether a byte may move at once.
    pub fn is_busy(&self) -> bool {
        match self.stage {
            Stage::Connects => self.socket.writable,
            Stage::Rests => self.socket.readable,
            Stage::Greets | Stage::Meets | Stage::Parts => {
                (self.socket.readable && !self.is_held && !self.far.has_all())
                    || (self.socket.writable && !self.far.leaving().is_empty())
            }
        }
    }

    /// When it ends if no byte moves.
    fn deadline(&self) -> u64 {
        let patience = match self.stage {
            Stage::Parts => self.idle.min(LINGER),
            _ => self.idle,
        };
        self.moved.saturating_add(patience)
    }

    /// When it holds no place any more, if no byte moves.
    fn lull(&self) -> u64 {
        self.moved.saturating_add(LULL)
    }

    /// When it is to be looked after, if nothing moves: before it ends, the place of its session is given up, if it has
    /// one.
    pub fn due(&self, has_place: bool) -> Option<u64> {
        if !self.is_open() {
            return None;
        }
        let lull = if has_place { self.lull() } else { u64::MAX };
        Some(self.deadline().min(lull))
    }

    /// Whether its session may keep its place no longer: no byte moved for a while, or, where others wait for one, the
    /// loan is over.
    pub fn is_over(&self, waits: bool, now: u64) -> bool
        // Where others wait, none is kept for longer.
        ensures { result ≡ false → waits ≡ true → now < over_at self.now.loan }
    {
        (waits && self.loan.due() <= now) || (self.is_open() && self.lull() <= now)
    }

    /// Whether no byte moved for too long, though one should have.
    pub fn is_late(&self, now: u64) -> bool {
        self.is_open() && self.deadline() <= now
    }

    /// Reads what is due, and writes what may leave. Where the peer ended the connection, nothing is written to it.
    #[tactic(auto, using(crate::proofs::Moving::moves_both))]
    pub fn move_bytes(&mut self, piece: &mut Piece, now: u64) -> Result<(), Refusal>
        ensures moves { MovesBytes self.old.far self.new.far }
        // Of one whose session gave its place up, nothing is read.
        ensures held { self.old.is_held ≡ true → came_at self.new.far ≡ came_at self.old.far }
        ensures stage { self.new.stage ≡ self.old.stage }
    {
        self.read(piece, now)?;
        if self.far.has_all() {
            return Ok(());
        }
        self.write(now)
    }

    /// Reads what is due.
    #[tactic(auto, using(crate::proofs::Moving::moves_none, crate::proofs::Moving::moves_both))]
    fn read(&mut self, piece: &mut Piece, now: u64) -> Result<(), Refusal>
        ensures moves { MovesBytes self.old.far self.new.far }
        ensures held { self.old.is_held ≡ true → self.new.far ≡ self.old.far }
        ensures stage { self.new.stage ≡ self.old.stage }
    {
        if self.is_held {
            return Ok(());
        }
        for _turn in 0..MOVES {
            if !self.read_once(piece, now)? {
                return Ok(());
            }
        }
        Ok(())
    }

    /// Reads once, where something is due. Whether it may be read again at once.
    #[tactic(auto, using(crate::proofs::Moving::moves_none, crate::proofs::Moving::moves_came))]
    fn read_once(&mut self, piece: &mut Piece, now: u64) -> Result<bool, Refusal>
        ensures moves { MovesBytes self.old.far self.new.far }
        ensures stage { self.new.stage ≡ self.old.stage }
    {
        if !self.socket.readable || self.far.has_all() {
            return Ok(false);
        }
        match self.socket.read(&mut Direct {}, piece) {
            Moved::Bytes(count) => {
                self.moved = now;
                self.loan.count(count as u64, now);
                self.has_heard = true;
                self.far.feed(piece.first(count))?;
                Ok(true)
            }
            Moved::Nothing => Ok(false),
            Moved::End => {
                self.far.end(false);
                Ok(false)
            }
            Moved::Failed => {
                self.far.end(true);
                Ok(false)
            }
        }
    }

    /// Writes what may leave.
    #[tactic(auto, using(crate::proofs::Moving::moves_none, crate::proofs::Moving::moves_both))]
    fn write(&mut self, now: u64) -> Result<(), Refusal>
        ensures moves { MovesBytes self.old.far self.new.far }
        ensures came { came_at self.new.far ≡ came_at self.old.far }
        ensures stage { self.new.stage ≡ self.old.stage }
    {
        for _turn in 0..MOVES {
            if !self.write_once(now)? {
                return Ok(());
            }
        }
        Ok(())
    }

    /// Writes once, where something is to leave. Whether it may be written again at once.
    #[tactic(auto, using(crate::proofs::Moving::moves_none, crate::proofs::Moving::moves_left))]
    fn write_once(&mut self, now: u64) -> Result<bool, Refusal>
        ensures moves { MovesBytes self.old.far self.new.far }
        ensures came { came_at self.new.far ≡ came_at self.old.far }
        ensures stage { self.new.stage ≡ self.old.stage }
    {
        let bytes = self.far.leaving();
        if !self.socket.writable || bytes.is_empty() {
            return Ok(false);
        }
        let most = bytes.len();
        match self.socket.write(&mut Direct {}, bytes) {
            Moved::Bytes(count) => {
                self.moved = now;
                self.loan.count(count as u64, now);
                self.far.left(count.min(most));
                Ok(true)
            }
            Moved::Nothing => Ok(false),
            Moved::End | Moved::Failed => Err(Refusal::WriteFailed),
        }
    }

    /// Whether it was kept since the session before, and a byte came meanwhile, or its end.
    pub fn is_stale(&mut self, piece: &mut Piece) -> bool
        ensures { self.new ≡ record self.old { socket = self.new.socket } }
    {
        self.is_kept && !self.is_quiet(piece)
    }

    /// Whether it is still as it was while nothing is asked: no byte came, and no end.
    fn is_quiet(&mut self, piece: &mut Piece) -> bool
        ensures { self.new ≡ record self.old { socket = self.new.socket } }
    {
        if !self.socket.readable {
            return true;
        }
        matches!(self.socket.read(&mut Direct {}, piece), Moved::Nothing)
    }
}
