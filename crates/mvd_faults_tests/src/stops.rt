//! Files that stop before some call, and are opened again.
use super::damaged::THREE_OLD;
use super::file_calls::{
    Course, NEVER, Stop, Stopping, Work, database, files_with, on_files, put_keys,
};
use super::replica_calls::{Root, end, new_replica, root_of};
use mvd_dots::Refusal;
use mvd_replica::Replica;
use sqlite::{Alter, Files};
use sqlite_disk::Crash;
use std::alloc::Global;
use std::test::Fail;

/// What is done on files that stop.
struct Run {
    name: &'static str,
    /// What was done on the files before.
    before: Work<'static>,
    work: Work<'static>,
    /// How many keys the other side has, where there is one.
    theirs: u8,
    /// How much is done when all of it is.
    whole: usize,
    /// After how many puts a commit ends; of a run without puts none. In rounds, a put at a key of its round begins
    /// another.
    commits: &'static [usize],
    /// Fewer calls of the log suffice.
    most: u64,
}

/// Nothing was done, and no file has a byte.
const NOTHING: Work<'static> = Work::Statements(&[]);

/// Six requests, each of which changes the states: puts at four keys, the last two of which supersede others.
const PUTS: &[&str] = &[
    "0000001222016b00000000000000077b2261223a317d",
    "0000001222016100000000000000077b2261223a327d",
    "0000001222016b00000000000000077b2261223a337d",
    "0000001222016200000000000000077b2261223a347d",
    "0000002222016b0000000100000001000000000000000200000000000000077b2261223a357d",
    "0000001222016300000000000000077b2261223a367d",
];

/// Two puts of the side whose files stop, the first at a key that the other side has too.
const MINE: &[&str] = &[
    "0000001222013000000000000000077b2261223a317d",
    "0000001222016100000000000000077b2261223a327d",
];

const RUNS: [Run; 6] = [
    Run {
        name: "six puts",
        before: NOTHING,
        work: Work::Puts(PUTS),
        theirs: 0,
        whole: 6,
        commits: &[0, 1, 2, 3, 4, 5, 6],
        most: FAILED,
    },
    Run {
        name: "six puts of three clients",
        before: NOTHING,
        work: Work::Rounds(PUTS),
        theirs: 0,
        whole: 6,
        commits: &[0, 2, 3, 6],
        most: FAILED,
    },
    // They are moved when the files are opened.
    Run {
        name: "three old keys",
        before: Work::Statements(THREE_OLD),
        work: Work::Open,
        theirs: 0,
        whole: 1,
        commits: &[],
        most: FAILED,
    },
    Run {
        name: "a session's local side",
        before: Work::Puts(MINE),
        work: Work::Local,
        theirs: 2,
        whole: 1,
        commits: &[],
        most: FAILED,
    },
    Run {
        name: "a session's peer",
        before: Work::Puts(MINE),
        work: Work::Peer,
        theirs: 2,
        whole: 1,
        commits: &[],
        most: FAILED,
    },
    // Its pushes are one commit: with a commit for each key there would be 38 more than in a session with two.
    Run {
        name: "a session's local side, with forty keys",
        before: Work::Puts(MINE),
        work: Work::Local,
        theirs: 40,
        whole: 1,
        commits: &[],
        most: 53,
    },
];

/// The machine comes back: both files have what a crash left of them, and no call fails any more.
fn revived(mut files: Files<Stopping>) -> Files<Stopping> {
    files.log.crash();
    files.db.crash();
    files
}

/// What a run came to, and what an open then, with one more session where the run is one; and the root of the other
/// side.
type Left = (Course, Course, Root);

/// Does so much of a run, on files that begin with these bytes, of which one stops. When the machine is back the
/// files are opened, and a session is held once more.
fn left_beside<T: Alter + Drop>(
    alloc: Global,
    run: &Run,
    bytes: &[u8],
    limits: (usize, Stop),
    other: &mut Replica<T>,
) -> Result<Left, Refusal> {
    let again = if run.commits.is_empty() {
        run.work
    } else {
        Work::Open
    };
    let files = files_with(alloc, bytes, limits.1)?;
    let (ran, files) = on_files(alloc, files, (run.work, limits.0), Some(&mut *other));
    let (back, files) = on_files(alloc, revived(files), (again, 1_000), Some(&mut *other));
    drop(files);
    Ok((ran, back, root_of(other)))
}

/// The same beside a side that is given the keys of its own.
fn left_by<T: Alter + Drop>(
    alloc: Global,
    run: &Run,
    bytes: &[u8],
    limits: (usize, Stop),
    mut other: Replica<T>,
) -> Result<Left, Refusal> {
    put_keys(alloc, &mut other, run.theirs, 0);
    let left = left_beside(alloc, run, bytes, limits, &mut other);
    end(other);
    left
}

/// The same beside a new side.
fn run_left(
    alloc: Global,
    run: &Run,
    bytes: &[u8],
    most: usize,
    stop: Stop,
) -> Result<Left, Refusal> {
    let other = new_replica(alloc, 2, &[])?;
    left_by(alloc, run, bytes, (most, stop), other)
}

/// Adds the roots in the course of a run, where nothing stops: of the puts after each, of a session after more and
/// more questions.
fn add_roots(alloc: Global, run: &Run, bytes: &[u8], roots: &mut Vec<Root>) -> Result<(), Refusal> {
    for most in 0..1_000usize {
        let (ran, _, _) = run_left(alloc, run, bytes, most, NEVER)?;
        roots.push(ran.last)?;
        if ran.done == run.whole {
            return Ok(());
        }
    }
    Ok(())
}

/// Whether puts that are answered are there, with those of the next commit or without them: the root is that after so
/// many, or more.
fn may_keep(run: &Run, roots: &[Root], done: usize, kept: Root) -> bool {
    let mut tried = 0u32;
    for count in run.commits {
        if *count >= done && tried < 2 {
            tried = tried.saturating_add(1);
            if roots.get(*count) == Some(&kept) {
                return true;
            }
        }
    }
    false
}

/// Whether a run left what it may. Of a session that is a root on its way, or that at its end where it ended well;
/// after one more session that is what is there at the end, on both sides.
fn may_leave(run: &Run, roots: &[Root], left: &Left) -> bool {
    let (ran, back, other) = left;
    if back.refusal.is_some() {
        return false;
    }
    if !run.commits.is_empty() {
        return may_keep(run, roots, ran.done, back.first);
    }
    let end = roots.last();
    let is_known = end == Some(&back.first) || (ran.done == 0 && roots.contains(&back.first));
    is_known && end == Some(&back.last) && (run.theirs == 0 || end == Some(other))
}

/// More calls than any run takes.
const FAILED: u64 = 10_000;

/// Stops one file before each of its calls, until all of a run is done, and tells how many calls that took; or `FAILED`
/// where other states were left.
fn calls_until_done(
    alloc: Global,
    run: &Run,
    bytes: &[u8],
    roots: &[Root],
    of_log: bool,
) -> Result<u64, Refusal> {
    for calls in 0..FAILED {
        let left = run_left(alloc, run, bytes, 1_000, (of_log, calls))?;
        if !may_leave(run, roots, &left) {
            return Ok(FAILED);
        }
        if left.0.done == run.whole {
            return Ok(calls);
        }
    }
    Ok(FAILED)
}

/// The same of the log and of the database, from nothing.
fn calls_of_both(alloc: Global, run: &Run) -> Result<(u64, u64), Refusal> {
    let bytes = database(alloc, run.before)?;
    let mut roots = Vec::new(alloc);
    let added = add_roots(alloc, run, bytes.as_slice(), &mut roots);
    let log = calls_until_done(alloc, run, bytes.as_slice(), roots.as_slice(), true);
    let db = calls_until_done(alloc, run, bytes.as_slice(), roots.as_slice(), false);
    drop(roots);
    drop(bytes);
    added?;
    Ok((log?, db?))
}

#[test]
fn each_file_may_stop(rt: HostRuntime) -> Result<(), Fail> {
    for run in &RUNS {
        let (log, db) = calls_of_both(rt.alloc(), run)?;
        println!(rt;
            "{}: {log} calls of the log, {db} of the database",
            run.name
        )?;
        assert!(rt; log < run.most && db < FAILED, "{}", run.name);
    }
    Ok(())
}
