//! An example of replicas within a program: two of them write while apart, meet, and one resolves what both wrote.
#![tactic(auto)]

ghost use Rattle.std.specs.Prelude.{◌<◌};

use mvd_store::{
    Alter, Config, Connection, Context, Defs, Document, Field, Key, KeyState, MemStore, Place,
    Refusal, Replica, SyncFault, Term, sync,
};
use std::alloc::Global;
use std::fmt::Write;

const OSLO: &str = "{\"city\":\"Oslo\"}";

const BERGEN: &str = "{\"city\":\"Bergen\"}";

const BOTH: &str = "{\"city\":\"Oslo\",\"was\":\"Bergen\"}";

/// Two sites write to one key, and one of them resolves it. It prints the documents that are read, and how many keys
/// each session exchanged. Each replica is one that `opened` gives, or one of a file.
pub fn run<S: Alter, T: Alter>(
    alloc: Global,
    desk: &mut Replica<S>,
    phone: &mut Replica<T>,
    out: &mut String,
) -> Result<(), Refusal> {
    put(alloc, desk, "ada", Context::new(alloc), OSLO)?;
    put(alloc, phone, "ada", Context::new(alloc), BERGEN)?;
    meet(alloc, desk, phone, out)?;

    // Both documents stand. The context that is read with them says what the next write replaces.
    let seen = show(alloc, desk, "ada", out)?;
    put(alloc, desk, "ada", seen, BOTH)?;
    meet(alloc, desk, phone, out)?;
    show(alloc, phone, "ada", out)?;
    find(alloc, phone, "city", "\"Oslo\"", out)
}

/// A replica with an index, in memory. In a file it is that of `open_file(rt, "notes.db", Unknown, config)`.
pub fn opened(alloc: Global, site: u32) -> Result<Replica<MemStore>, Refusal>
    requires { 0 < site }
{
    let mut defs = Defs::new(alloc);
    defs.index(Field::read(alloc, "city")?)?;
    let conn = Connection::open_in_memory(alloc)?;
    match Replica::open(alloc, conn, Config::new(site, 1_000_000, defs)) {
        Ok(replica) => Ok(replica),
        Err((refusal, _)) => Err(refusal),
    }
}

/// Writes a document in place of what was seen. Once this returns, it is stored.
fn put<S: Alter>(
    alloc: Global,
    replica: &mut Replica<S>,
    key: &str,
    seen: Context,
    text: &str,
) -> Result<(), Refusal> {
    let document = Document::read(alloc, text)?;
    let _dot = replica.put(Key::read(alloc, key)?, seen, document)?;
    Ok(())
}

/// Prints the documents of a key, and gives the context to hand to the next write.
fn show<S: Alter>(
    alloc: Global,
    replica: &mut Replica<S>,
    key: &str,
    out: &mut String,
) -> Result<Context, Refusal> {
    let state = replica.get(&Key::read(alloc, key)?)?;
    let seen = print_state(key, &state, out);
    drop(state);
    seen
}

/// Prints the documents of a state, and gives its context.
fn print_state(key: &str, state: &KeyState, out: &mut String) -> Result<Context, Refusal> {
    for sibling in state.siblings() {
        let document = sibling.document.text();
        writeln!(out, "{key} {document}")?;
    }
    state.context().copy()
}

/// Prints the keys whose documents have a term at an indexed field: the first page of them.
fn find<S: Alter>(
    alloc: Global,
    replica: &Replica<S>,
    field: &str,
    term: &str,
    out: &mut String,
) -> Result<(), Refusal> {
    let field = Field::read(alloc, field)?;
    let (places, _) = replica.find(field, Term::read(alloc, term)?, None)?;
    let ended = print_places(places.as_slice(), out);
    drop(places);
    ended
}

fn print_places(places: &[Place], out: &mut String) -> Result<(), Refusal> {
    for place in places {
        let key = place.key.text();
        writeln!(out, "found {key}")?;
    }
    Ok(())
}

/// A session: afterwards both hold all that one of them held.
fn meet<S: Alter, T: Alter>(
    alloc: Global,
    local: &mut Replica<S>,
    peer: &mut Replica<T>,
    out: &mut String,
) -> Result<(), Refusal> {
    match sync(alloc, local, peer) {
        Ok(report) => {
            let keys = report.keys;
            writeln!(out, "keys {keys}")?;
            Ok(())
        }
        Err(SyncFault::Local(refusal) | SyncFault::Peer(refusal)) => Err(refusal),
    }
}
