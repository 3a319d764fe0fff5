//! What moves the bytes of the clients.
ghost use Rattle.std.specs.Prelude.{◌≡◌, IfOk, List, OnErr, OnOk, take, ℕ};
ghost use Rattle.std.specs.Io.{ReadsAtMost, WritesAtMost};

use mio::net::{TcpListener, TcpStream};
use mio::{Interest, Registry, Token};
use std::io::{self, Read, Write};
use std::net::{Net, Shutdown, SocketAddr};

/// The sockets of all clients. Who comes in has a number from when its socket is taken over, and only this reads of that
/// and writes to it.
pub trait Sockets {
    /// Where clients come in.
    type Listener: Drop;

    /// Who came in, and has no number yet.
    type Arrival: Drop;

    /// The socket of one who has a number.
    type Socket: Drop;

    /// The number under which a socket was taken over.
    ghost number_of: { Self.Socket → ℕ };

    /// A socket was taken over under this number.
    ghost began: { Self → ℕ → Self → Type 0 };

    /// A read gave these bytes, which came of the client of this number.
    ghost gave: { Self → ℕ → List ℕ → Self → Type 0 };

    /// A write took these bytes, which leave to the client of this number.
    ghost took: { Self → ℕ → List ℕ → Self → Type 0 };

    /// Listens at an address. By this token the system tells that somebody may have come.
    fn listen<N: Net>(
        rt: &N,
        registry: &Registry,
        token: Token,
        address: SocketAddr,
    ) -> io::Result<Self::Listener>;

    /// Lets one in, if one waits.
    fn accept(listener: &Self::Listener) -> io::Result<Self::Arrival>;

    /// Takes a socket over. By its number the system tells of it from now on.
    fn take_over(
        &mut self,
        registry: &Registry,
        number: u64,
        arrival: Self::Arrival,
    ) -> io::Result<Self::Socket>
        ensures number { IfOk result (λ socket. number_of socket ≡ number) }
        ensures began { OnOk result (began self.old number self.new) }
        ensures none { OnErr result (self.new ≡ self.old) };

    /// The number under which a socket was taken over.
    fn number(socket: &Self::Socket) -> u64
        ensures { result ≡ number_of socket.now };

    /// Reads once of a client.
    fn read(&mut self, socket: &Self::Socket, buffer: &mut [u8]) -> io::Result<usize>
        ensures bound { ReadsAtMost result buffer.new }
        ensures gave { IfOk result (λ n. gave self.old (number_of socket.now) (take n buffer.new) self.new) }
        ensures none { OnErr result (self.new ≡ self.old) };

    /// Writes once to a client.
    fn write(&mut self, socket: &Self::Socket, bytes: &[u8]) -> io::Result<usize>
        ensures bound { WritesAtMost result bytes.now }
        ensures took { IfOk result (λ n. took self.old (number_of socket.now) (take n bytes.now) self.new) }
        ensures none { OnErr result (self.new ≡ self.old) };

    /// Nothing more is written to a client. It is `false` where the system refuses that.
    fn shut(socket: &Self::Socket) -> bool;
}

/// The system's own sockets.
#[derive(Drop)]
pub struct Direct {}

/// A socket of the system's, and its number.
#[derive(Drop)]
pub struct DirectSocket {
    number: u64,
    stream: TcpStream,
}

impl DirectSocket {
    /// Whether this end is connected, which it asked for. What is written leaves at once, unless that is refused.
    pub(crate) fn begins(&self) -> bool {
        let _ = self.stream.set_nodelay(true);
        matches!(self.stream.take_error(), Ok(None))
    }
}

impl Sockets for Direct {
    type Listener = TcpListener;

    type Arrival = TcpStream;

    type Socket = DirectSocket;

    ghost number_of = { λ socket. socket.number };

    // Nothing is known of what comes and leaves by the system's sockets.
    ghost began = { λ _ _ _. Unit {0} };

    ghost gave = { λ _ _ _ _. Unit {0} };

    ghost took = { λ _ _ _ _. Unit {0} };

    fn listen<N: Net>(
        rt: &N,
        registry: &Registry,
        token: Token,
        address: SocketAddr,
    ) -> io::Result<TcpListener> {
        let mut listener = TcpListener::bind(rt, address)?;
        registry.register(&mut listener, token, Interest::READABLE)?;
        Ok(listener)
    }

    fn accept(listener: &TcpListener) -> io::Result<TcpStream> {
        let (stream, _) = listener.accept()?;
        Ok(stream)
    }

    fn take_over(
        &mut self,
        registry: &Registry,
        number: u64,
        mut stream: TcpStream,
    ) -> io::Result<DirectSocket> {
        let token = Token(number as usize);
        registry.register(&mut stream, token, Interest::READABLE | Interest::WRITABLE)?;
        // Where that is refused, replies may come later.
        let _ = stream.set_nodelay(true);
        Ok(DirectSocket { number, stream })
    }

    fn number(socket: &DirectSocket) -> u64 {
        socket.number
    }

    fn read(&mut self, socket: &DirectSocket, buffer: &mut [u8]) -> io::Result<usize> {
        (&mut &socket.stream).read(buffer)
    }

    fn write(&mut self, socket: &DirectSocket, bytes: &[u8]) -> io::Result<usize> {
        (&mut &socket.stream).write(bytes)
    }

    fn shut(socket: &DirectSocket) -> bool {
        socket.stream.shutdown(Shutdown::Write).is_ok()
    }
}
