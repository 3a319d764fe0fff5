//! Two files, and what is done with the stored site that they hold. What names the store of files stands here, in
//! functions for any disk: a proof about such a store carries all of its clauses.
use super::host_calls::told_by_three;
use super::replica_calls::{
    Bytes, Root, conn_of, counted, opened, push, replies, root_of, run_all, serves,
};
use super::stream_ways::ALL;
use mvd_dots::Refusal;
use mvd_replica::Replica;
use mvd_sync::sync_within;
use sqlite::{Alter, Connection, Error, FileStore, Files, Leftover, MemStore, Options};
use sqlite_disk::{Disk, Fuse, Memory};
use std::alloc::Global;

pub type Stopping = Fuse<Memory>;

/// Which of two files stops, the log or else the database, and after how many calls.
pub type Stop = (bool, u64);

/// No file stops.
pub const NEVER: Stop = (true, u64::MAX);

/// Two files in memory, of which the database has these bytes, and the log has none.
pub fn files_with(alloc: Global, bytes: &[u8], stop: Stop) -> Result<Files<Stopping>, Refusal> {
    let mut db = Memory::new(alloc);
    if !db.may_be_used() || db.write_at(0, bytes).is_err() || db.sync().is_err() {
        return Err(Refusal::Memory);
    }
    let (log_calls, db_calls) = if stop.0 {
        (stop.1, u64::MAX)
    } else {
        (u64::MAX, stop.1)
    };
    Ok(Files {
        log: Fuse::new(Memory::new(alloc), log_calls),
        db: Fuse::new(db, db_calls),
    })
}

// Each call of the kit stands in a helper with no clause, so that no proof carries the clauses of two.

/// What was opened, or the files that are left.
fn or_files<D: Disk + Drop>(
    found: Result<Connection<FileStore<D>>, (Error, Leftover<D>)>,
) -> Result<Connection<FileStore<D>>, Files<D>> {
    match found {
        Ok(conn) => Ok(conn),
        Err((fault, left)) => {
            drop(fault);
            Err(left.into_files())
        }
    }
}

fn connected<D: Disk + Drop>(
    alloc: Global,
    files: Files<D>,
) -> Result<Connection<FileStore<D>>, Files<D>> {
    if files.may_be_used() {
        or_files(Connection::open_files(alloc, files, Options::new(1)))
    } else {
        Err(files)
    }
}

/// The files of a database, which is closed: it stands in one of them alone, unless a file has stopped.
fn closed<D: Disk + Drop>(conn: Connection<FileStore<D>>) -> Files<D> {
    match conn.close_files() {
        Ok(files) => files,
        Err((_, store)) => store.close(),
    }
}

/// What is done with records.
#[derive(Clone, Copy)]
pub enum Work<'a> {
    /// These statements are run, and no replica is opened.
    Statements(&'a [&'a str]),
    /// The replica of site 1 is opened, and nothing else.
    Open,
    /// Documents are put at so many keys of it, each of so many letters more than the one before.
    Documents(u8, u32),
    /// Puts are served, as many as are asked for.
    Puts(&'a [&'a str]),
    /// Three clients of a host send them, one each in a round, which are answered at once.
    Rounds(&'a [&'a str]),
    /// A session with another replica, with as many questions to each side as are asked for: as its local side, and
    /// as the peer.
    Local,
    Peer,
}

/// Adds a put of a document of so many letters at a key of one letter.
fn add_put(frame: &mut Vec<u8>, key: u8, letters: u32) {
    let [a, b, c, d] = letters.saturating_add(19).to_be_bytes();
    let [e, f, g, h] = letters.saturating_add(8).to_be_bytes();
    push(frame, &[a, b, c, d, 0x22, 1, key, 0, 0, 0, 0, e, f, g, h]);
    push(frame, b"{\"a\":\"");
    for _ in 0..letters {
        push(frame, b"x");
    }
    push(frame, b"\"}");
}

/// Puts documents at so many keys, each of so many letters more than the one before.
pub fn put_keys<S: Alter + Drop>(alloc: Global, replica: &mut Replica<S>, keys: u8, letters: u32) {
    for number in 0..keys {
        let letters = letters.saturating_mul(u32::from(number));
        let mut put = Vec::new(alloc);
        add_put(&mut put, b'0'.saturating_add(number), letters);
        let _replies = replies(alloc, replica, put.as_slice());
    }
}

/// 1 where a session with so many questions to each side at most ends well, and else 0.
fn meets<S: Alter + Drop, T: Alter + Drop>(
    alloc: Global,
    local: &mut Replica<S>,
    peer: &mut Replica<T>,
    questions: usize,
) -> usize {
    usize::from(sync_within(alloc, local, peer, (questions as u64).clamp(1, 1_000)).is_ok())
}

/// Does work on a replica, and tells how much was done: how many puts were answered by a dot, or whether all was done.
fn does<S: Alter + Drop, T: Alter + Drop>(
    alloc: Global,
    work: (Work<'_>, usize),
    replica: &mut Replica<S>,
    other: Option<&mut Replica<T>>,
) -> usize {
    let most = work.1;
    match work.0 {
        Work::Statements(_) | Work::Open => 1,
        Work::Documents(keys, letters) => {
            put_keys(alloc, replica, keys, letters);
            1
        }
        Work::Puts(puts) => {
            let puts = puts.get(..most).unwrap_or(puts);
            let (output, _) = serves(alloc, replica, &Bytes::of(puts), ALL, ALL);
            counted(output.bytes()).1
        }
        Work::Rounds(puts) => {
            let puts = puts.get(..most).unwrap_or(puts);
            let output = told_by_three(alloc, replica, puts);
            counted(output.bytes()).1
        }
        Work::Local => match other {
            Some(other) => meets(alloc, replica, other, most),
            None => 0,
        },
        Work::Peer => match other {
            Some(other) => meets(alloc, other, replica, most),
            None => 0,
        },
    }
}

/// What work came to: why no replica was opened, or a statement was not run; the root before it, how much was done,
/// and the root then.
#[derive(Clone, Copy)]
pub struct Course {
    pub refusal: Option<Refusal>,
    pub first: Root,
    pub done: usize,
    pub last: Root,
}

/// The course of work that came to nothing.
fn nothing(refusal: Option<Refusal>) -> Course {
    Course {
        refusal,
        first: [0; 32],
        done: 0,
        last: [0; 32],
    }
}

/// The course of work on a replica.
fn course_of<S: Alter + Drop, T: Alter + Drop>(
    alloc: Global,
    replica: &mut Replica<S>,
    work: (Work<'_>, usize),
    other: Option<&mut Replica<T>>,
) -> Course {
    let first = root_of(replica);
    let done = does(alloc, work, replica, other);
    Course {
        refusal: None,
        first,
        done,
        last: root_of(replica),
    }
}

/// Does work on the records that a connection holds.
fn on_records<S: Alter + Drop, T: Alter + Drop>(
    alloc: Global,
    mut conn: Connection<S>,
    work: (Work<'_>, usize),
    other: Option<&mut Replica<T>>,
) -> (Course, Connection<S>) {
    if let Work::Statements(statements) = work.0 {
        let refusal = run_all(&mut conn, statements).err();
        return (nothing(refusal), conn);
    }
    match opened(alloc, conn, 1) {
        Ok(mut replica) => {
            let course = course_of(alloc, &mut replica, work, other);
            (course, conn_of(replica))
        }
        Err((refusal, conn)) => (nothing(Some(refusal)), conn),
    }
}

/// The same of the records of a file, which is closed then.
fn on_open<D: Disk + Drop, T: Alter + Drop>(
    alloc: Global,
    conn: Connection<FileStore<D>>,
    work: (Work<'_>, usize),
    other: Option<&mut Replica<T>>,
) -> (Course, Files<D>) {
    let (course, conn) = on_records(alloc, conn, work, other);
    (course, closed(conn))
}

/// Does work, so much of it, on the records that two files hold, beside another replica, and gives the files as they
/// are then.
pub fn on_files<D: Disk + Drop, T: Alter + Drop>(
    alloc: Global,
    files: Files<D>,
    work: (Work<'_>, usize),
    other: Option<&mut Replica<T>>,
) -> (Course, Files<D>) {
    match connected(alloc, files) {
        Ok(conn) => on_open(alloc, conn, work, other),
        Err(files) => (nothing(Some(Refusal::Store)), files),
    }
}

/// The same beside no other.
pub fn on_these<D: Disk + Drop>(
    alloc: Global,
    files: Files<D>,
    work: (Work<'_>, usize),
) -> (Course, Files<D>) {
    on_files::<D, MemStore>(alloc, files, work, None)
}

/// The bytes of the database of two new files after work on them.
pub fn database(alloc: Global, work: Work<'_>) -> Result<Vec<u8>, Refusal> {
    let files = files_with(alloc, &[], NEVER)?;
    let (course, files) = on_these(alloc, files, (work, 1_000));
    let mut bytes = Vec::new(alloc);
    push(&mut bytes, files.db.inner().bytes());
    drop(files);
    match course.refusal {
        Some(refusal) => {
            drop(bytes);
            Err(refusal)
        }
        None => Ok(bytes),
    }
}
