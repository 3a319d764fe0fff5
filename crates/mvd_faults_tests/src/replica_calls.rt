//! A replica, its connections, and frames in hexadecimal digits. What is asked and answered here stands in arrays, so
//! it takes no memory.
use super::stream_ways::{ALL, Stream, Ways};
use mvd_docs::{Field, ViewName};
use mvd_dots::Refusal;
use mvd_replica::{Ended, Replica, serve};
use mvd_rows::Defs;
use mvd_site::Config;
use sqlite::{Alter, Connection, MemStore};
use std::alloc::Global;
use std::io::{Read, Write};

/// A put of `{"a":1}` at `k`, and its reply.
pub const PUT: &str = "0000001222016b00000000000000077b2261223a317d";

pub const WRITTEN: &str = "0000000da2000000010000000000000001";

/// A put at `k` whose context has a loose counter next to its base, and its reply.
pub const WIDE: &str =
    "0000002a22016b00000001000000010000000000000001000000010000000000000002000000077b2261223a317d";

pub const BAD_CONTEXT: &str = "00000002ee02";

/// A push to `k` of the dot 1:1 with `{"a":2}`, and its reply.
pub const CLASH: &str =
    "0000003029016b00000001000000010000000000000001000000000001000000010000000000000001000000077b2261223a327d";

pub const CLASHES: &str = "00000002ee0b";

/// A question for the state of `k`, and its reply before the put and after it.
pub const GET: &str = "0000000321016b";

pub const EMPTY: &str = "00000007a1000000000000";

pub const STATE: &str =
    "0000002ea100000001000000010000000000000001000000000001000000010000000000000001000000077b2261223a317d";

/// The most bytes that a connection here holds, each way.
pub const ROOM: usize = 600;

/// Bytes in a room of their own.
#[derive(Clone, Copy)]
pub struct Bytes {
    pub room: [u8; ROOM],
    pub len: usize,
}

fn digit(letter: u8) -> u8 {
    match letter {
        b'a'..=b'f' => letter.saturating_sub(b'a').saturating_add(10),
        _ => letter.saturating_sub(b'0'),
    }
}

impl Bytes {
    /// Those of these hexadecimal digits, one part after the other.
    pub fn of(parts: &[&str]) -> Bytes {
        let mut bytes = Bytes {
            room: [0; ROOM],
            len: 0,
        };
        for part in parts {
            bytes.add(part);
        }
        bytes
    }

    pub fn add(&mut self, digits: &str) {
        let start = self.len.min(ROOM);
        for (byte, pair) in self.room[start..]
            .iter_mut()
            .zip(digits.as_bytes().chunks(2))
        {
            if let [high, low] = pair {
                *byte = digit(*high).wrapping_mul(16).wrapping_add(digit(*low));
            }
        }
        self.len = start.saturating_add(digits.len() / 2);
    }

    /// Puts these behind the others, as far as they have room.
    pub fn put(&mut self, bytes: &[u8]) {
        let start = self.len.min(ROOM);
        for (place, byte) in self.room[start..].iter_mut().zip(bytes) {
            *place = *byte;
        }
        self.len = start.saturating_add(bytes.len()).min(ROOM);
    }

    pub fn bytes(&self) -> &[u8] {
        &self.room[..self.len.min(ROOM)]
    }
}

/// The first frame of these bytes, and what follows it.
pub fn first_frame(bytes: &[u8]) -> (&[u8], &[u8]) {
    let len = match bytes {
        [a, b, c, d, ..] => (u32::from_be_bytes([*a, *b, *c, *d]) as usize).saturating_add(4),
        _ => 0,
    };
    bytes.split_at(len.min(bytes.len()))
}

/// How many replies these bytes are, and how many of them are a dot; and how many bytes are left from the first on
/// that is no reply.
pub fn counted(output: &[u8]) -> (usize, usize, usize) {
    let mut rest = output;
    let mut replies = 0usize;
    let mut dots = 0usize;
    for _ in 0..output.len() {
        let (frame, behind) = first_frame(rest);
        match frame {
            [_, _, _, _, 0xA2, ..] => dots = dots.saturating_add(1),
            [_, _, _, _, 0xA0..=0xAF | 0xEE, ..] => {}
            _ => break,
        }
        replies = replies.saturating_add(1);
        rest = behind;
    }
    (replies, dots, rest.len())
}

// These have no clause, so that the proof of a test does not carry the state of each call.
fn is_run<S: Alter>(conn: &mut Connection<S>, sql: &str) -> bool {
    conn.execute_batch(sql).is_ok()
}

pub fn run_all<S: Alter>(conn: &mut Connection<S>, statements: &[&str]) -> Result<(), Refusal> {
    for sql in statements {
        if !is_run(conn, sql) {
            return Err(Refusal::Store);
        }
    }
    Ok(())
}

/// A database in memory, after these statements.
fn memory_after(alloc: Global, statements: &[&str]) -> Result<Connection<MemStore>, Refusal> {
    let Ok(mut conn) = Connection::open_in_memory(alloc) else {
        return Err(Refusal::Store);
    };
    match run_all(&mut conn, statements) {
        Ok(()) => Ok(conn),
        Err(refusal) => {
            drop(conn);
            Err(refusal)
        }
    }
}

pub fn conn_of<S: Alter + Drop>(replica: Replica<S>) -> Connection<S> {
    replica.into_connection()
}

/// Lets a replica go as its connection, so that nothing here proves the drop of a site.
pub fn end<S: Alter + Drop>(replica: Replica<S>) {
    drop(conn_of(replica));
}

fn index(alloc: Global, defs: &mut Defs, name: &str) -> Result<(), Refusal> {
    defs.index(Field::read(alloc, name)?)
}

/// Three indexes, and a view of what is spent in each city.
fn define(alloc: Global, defs: &mut Defs) -> Result<(), Refusal> {
    for name in ["city", "a", "v"] {
        index(alloc, defs, name)?;
    }
    defs.view(
        ViewName::read(alloc, "spend")?,
        Field::read(alloc, "city")?,
        Field::read(alloc, "amount")?,
    )
}

/// The configuration of a site that may hold so many keys.
fn config(alloc: Global, number: u32, max_keys: u32) -> Result<Config, Refusal> {
    let mut defs = Defs::new(alloc);
    define(alloc, &mut defs)?;
    Ok(Config::new(number.max(1), max_keys.clamp(1, 1_000_000), defs))
}

/// The replica of that site. A refusal gives the connection back.
pub fn opened_within<S: Alter + Drop>(
    alloc: Global,
    conn: Connection<S>,
    number: u32,
    max_keys: u32,
) -> Result<Replica<S>, (Refusal, Connection<S>)> {
    match config(alloc, number, max_keys) {
        Ok(config) => Replica::open(alloc, conn, config),
        Err(refusal) => Err((refusal, conn)),
    }
}

/// The same of a site that may hold a hundred keys.
pub fn opened<S: Alter + Drop>(
    alloc: Global,
    conn: Connection<S>,
    number: u32,
) -> Result<Replica<S>, (Refusal, Connection<S>)> {
    opened_within(alloc, conn, number, 100)
}

/// What was opened, or the refusal alone.
fn or_refusal<T, U: Drop>(found: Result<T, (Refusal, U)>) -> Result<T, Refusal> {
    match found {
        Ok(found) => Ok(found),
        Err((refusal, rest)) => {
            drop(rest);
            Err(refusal)
        }
    }
}

/// The replica that records hold, which are opened once more where memory was refused.
pub fn open_again<S: Alter + Drop>(
    alloc: Global,
    conn: Connection<S>,
    number: u32,
) -> Result<Replica<S>, Refusal> {
    match opened(alloc, conn, number) {
        Err((Refusal::Memory | Refusal::Store, conn)) => or_refusal(opened(alloc, conn, number)),
        found => or_refusal(found),
    }
}

/// The same of new records after these statements, which are made once more where memory was refused.
pub fn new_replica(
    alloc: Global,
    number: u32,
    statements: &[&str],
) -> Result<Replica<MemStore>, Refusal> {
    let conn = match memory_after(alloc, statements) {
        Err(_) => memory_after(alloc, statements),
        made => made,
    };
    open_again(alloc, conn?, number)
}

/// Puts bytes behind others. Where memory is refused they are missing there, and the reply is another than is wanted.
pub fn push(bytes: &mut Vec<u8>, more: &[u8]) {
    let _ = bytes.extend_from_slice(more);
}

/// An end of a connection, as a word or the name of a refusal.
fn name_of(ended: Result<Ended, Refusal>) -> &'static str {
    match ended {
        Ok(Ended::Bye) => "bye",
        Ok(Ended::End) => "end",
        Err(refusal) => refusal.name(),
    }
}

/// How a connection ended.
fn served_on<R: Read, W: Write, S: Alter + Drop>(
    alloc: Global,
    reader: &mut R,
    writer: &mut W,
    replica: &mut Replica<S>,
) -> &'static str {
    name_of(serve(alloc, reader, writer, replica))
}

/// What a connection with these bytes gives, however long it is, and how it ends.
pub fn replies<S: Alter + Drop>(
    alloc: Global,
    replica: &mut Replica<S>,
    mut input: &[u8],
) -> (Vec<u8>, &'static str) {
    let mut output = Vec::new(alloc);
    let ended = served_on(alloc, &mut input, &mut output, replica);
    (output, ended)
}

/// What a connection with these bytes gives over such streams, and how it ends.
pub fn serves<S: Alter + Drop>(
    alloc: Global,
    replica: &mut Replica<S>,
    input: &Bytes,
    read: Ways,
    write: Ways,
) -> (Bytes, &'static str) {
    let mut room = [0; ROOM];
    let inner: &mut [u8] = &mut room;
    let mut reader = Stream {
        inner: input.bytes(),
        ways: read,
    };
    let mut writer = Stream { inner, ways: write };
    let ended = served_on(alloc, &mut reader, &mut writer, replica);
    let left = writer.inner.len();
    let len = ROOM.saturating_sub(left);
    (Bytes { room, len }, ended)
}

/// What a reply tells, beside the one that is wanted.
#[derive(Clone, Copy)]
pub enum Told {
    Wanted,
    /// Memory was refused, to the site or to its store.
    Refused,
    Broken,
    /// There is none.
    Nothing,
    Other,
}

/// What these bytes tell.
pub fn tells(reply: &[u8], wanted: &str) -> Told {
    if reply == Bytes::of(&[wanted]).bytes() {
        return Told::Wanted;
    }
    match reply {
        [0, 0, 0, 2, 0xEE, 20 | 21] => Told::Refused,
        [0, 0, 0, 2, 0xEE, 22] => Told::Broken,
        [] => Told::Nothing,
        _ => Told::Other,
    }
}

/// What a replica answers to a request on a connection of its own, and once more where memory was refused.
pub fn asks<S: Alter + Drop>(
    alloc: Global,
    replica: &mut Replica<S>,
    request: &str,
    wanted: &str,
) -> Told {
    let mut told = Told::Refused;
    for _ in 0..2u32 {
        if matches!(told, Told::Refused) {
            let (output, _) = serves(alloc, replica, &Bytes::of(&[request]), ALL, ALL);
            told = tells(output.bytes(), wanted);
        }
    }
    told
}

/// The digest of the root; zeros of a replica that is broken.
pub type Root = [u8; 32];

pub fn root_of<S: Alter + Drop>(replica: &Replica<S>) -> Root {
    match replica.root() {
        Ok(root) => root,
        Err(_) => [0; 32],
    }
}
