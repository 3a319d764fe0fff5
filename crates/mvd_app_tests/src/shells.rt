//! Lines that are typed, and what they print.
use crate::hints::opened;
use mvd_dots::Refusal;
use mvd_input::{Fault, read_defs};
use mvd_replica::Replica;
use mvd_shell::{NoLosses, shell_run};
use sqlite::{Connection, MemStore};
use std::alloc::Global;
use std::test::Fail;

/// Site 7, which holds two keys at most, with an index and a view.
fn in_memory(alloc: Global) -> Result<Replica<MemStore>, Fault> {
    let defs = read_defs(alloc, b"index city\nview v city n\n")?;
    let Ok(conn) = Connection::open_in_memory(alloc) else {
        return Err(Fault::Stopped(Refusal::Store));
    };
    match opened(alloc, conn, 7, defs) {
        Ok(replica) => Ok(replica),
        Err(stop) => Err(stop.fault),
    }
}

/// What the lines print.
fn printed(alloc: Global, replica: &mut Replica<MemStore>, lines: &[u8]) -> Result<Vec<u8>, Fault> {
    let mut reader = lines;
    let mut out = Vec::new(alloc);
    shell_run::<Replica<MemStore>, NoLosses, &[u8], Vec<u8>>(
        alloc,
        replica,
        &mut reader,
        &mut out,
    )?;
    Ok(out)
}

/// Whether the lines print this.
fn prints(alloc: Global, lines: &[u8], wanted: &str) -> Result<bool, Fault> {
    let mut replica = in_memory(alloc)?;
    let out = printed(alloc, &mut replica, lines);
    drop(replica);
    Ok(out?.as_slice() == wanted.as_bytes())
}

/// Writes, questions, refusals, and lines that are no command; and what they print.
const LINES: [(&[u8], &str); 4] = [
    (
        b"put k - {\"city\":\"Oslo\"}\nput k - {\"city\":\"Rome\"}\nget k\nput k @ {\"n\":2}\nget k\ndel k 7:2\ndel k @\nget k",
        "dot 7:1\ndot 7:2\ncontext 7:2\n7:1 {\"city\":\"Oslo\"}\n7:2 {\"city\":\"Rome\"}\ndot 7:3\ncontext 7:3\n7:3 {\"n\":2}\nok\nok\ncontext 7:3\n",
    ),
    (
        b"put a - {\"city\":\"Oslo\",\"n\":2}\nfind city \"Oslo\"\nrange city [\"A\",\"Z\"]\nrow v \"Oslo\"\nrows v\nfind city 1\nnode 000\n",
        "dot 7:1\na 7:1\n\"Oslo\" a 7:1\n1 2 2 2\n\"Oslo\" 1 2 2 2\nnone\n0000000000000000000000000000000000000000000000000000000000000000\n",
    ),
    (
        b"put a - []\nput a - {\"b\":[{\"c\":1.5}],\"d\":-0}\nput a 1:0 {}\nfind n 1\nrow w 1\nfind .. 1\nnode x\nput a - {}\nput b - {}\nput c - {}\n",
        "refused 4 NotObject at \"\"\nrefused 5 BadNumber at \"/b/0/c\"\nrefused 2 BadContext\nrefused 12 NoIndex\n\
        refused 13 NoView\nrefused 37 BadDefs\nrefused 14 BadPath\ndot 7:1\ndot 7:1\nrefused 10 Full\n",
    ),
    (
        b"# nothing\n\nget\nget 1 k\nroot 1\nsync 2\nmax 3\n\xff\nget k\r\nget k\n",
        "line 3: not a command\nline 4: not a command\nline 5: not a command\n\
        line 6: not a command\nline 7: not a command\nline 8: not a command\nrefused 1 BadKey\ncontext -\n",
    ),
];

#[test]
fn lines_are_answered(rt: HostRuntime) -> Result<(), Fail> {
    for (lines, wanted) in LINES {
        assert!(rt; prints(rt.alloc(), lines, wanted)?, "{wanted}");
    }
    Ok(())
}
