//! Scripts, and what they print.
use crate::list_scripts::{INDEXES, KEYS, VIEWS};
use crate::session_scripts::{MEETINGS, REFUSALS};
use crate::text_scripts::{CONTEXTS, DOCUMENTS, TERMS};
use mvd_input::Fault;
use mvd_script::sim;
use std::alloc::Global;
use std::test::Fail;

/// What a script prints.
pub fn printed(alloc: Global, script: &str) -> Result<Vec<u8>, Fault> {
    let mut reader = script.as_bytes();
    let mut out = Vec::new(alloc);
    sim(alloc, &mut reader, &mut out)?;
    Ok(out)
}

/// The text that was printed.
pub fn text_of(out: &[u8]) -> &str {
    match str::from_utf8(out) {
        Ok(text) => text,
        Err(_) => "no text",
    }
}

/// Fails where the text is not this.
fn is_text(name: &str, text: &str, wanted: &str) -> Result<(), Fail> {
    if text == wanted {
        Ok(())
    } else {
        Err(Fail::new(format_args!("{name}: {text}")))
    }
}

/// Fails where a script does not print this.
fn prints(alloc: Global, name: &str, script: &str, wanted: &str) -> Result<(), Fail> {
    let out = printed(alloc, script)?;
    is_text(name, text_of(&out), wanted)
}

/// Fails where a script does not print what its case says.
fn all_print(alloc: Global, cases: &[Case]) -> Result<(), Fail> {
    for (name, script, wanted) in cases {
        prints(alloc, name, script, wanted)?;
    }
    Ok(())
}

/// A name, a script, and what it prints.
pub type Case = (&'static str, &'static str, &'static str);

const BASICS: &[Case] = &[
    ("nothing is held", "sites 1\nget 1 k\n", "context -\n"),
    (
        "a put is shown",
        "sites 1\nput 1 k - {\"a\":1}\nget 1 k\n",
        "dot 1:1\ncontext 1:1\n1:1 {\"a\":1}\n",
    ),
    (
        "two blind puts are siblings, and a third that has read both replaces them",
        "sites 2\nput 1 k - {\"v\":1}\nput 2 k - {\"v\":2}\nsend 2 k\nrecv 1 1\nget 1 k\nput 1 k @ {\"v\":3}\n\
        get 1 k\n",
        "dot 1:1\ndot 2:1\nmessage 1\nok\ncontext 1:1,2:1\n1:1 {\"v\":1}\n2:1 {\"v\":2}\ndot 1:2\n\
        context 1:2,2:1\n1:2 {\"v\":3}\n",
    ),
    (
        "a delete overtakes its put",
        "sites 3\nput 1 k - {\"a\":1}\nsend 1 k\nrecv 2 1\ndel 2 k @\nsend 2 k\nrecv 3 2\nget 3 k\nrecv 3 1\nget 3 k\n",
        "dot 1:1\nmessage 1\nok\nok\nmessage 2\nok\ncontext 1:1\nok\ncontext 1:1\n",
    ),
    (
        "a loose dot is folded in",
        "sites 1\nput 1 k 2:0+3 {\"v\":1}\nget 1 k\ndel 1 k 2:2\nget 1 k\n",
        "dot 1:1\ncontext 1:1,2:0+3\n1:1 {\"v\":1}\nok\ncontext 1:1,2:3\n1:1 {\"v\":1}\n",
    ),
    (
        "a delete removes only what was seen",
        "sites 2\nput 1 k - {\"a\":1}\nsend 1 k\nrecv 2 1\ndel 2 k @\nput 1 k - {\"a\":2}\nsend 1 k\nsend 2 k\n\
        recv 2 2\nrecv 1 3\nget 1 k\nget 2 k\n",
        "dot 1:1\nmessage 1\nok\nok\ndot 1:2\nmessage 2\nmessage 3\nok\nok\ncontext 1:2\n1:2 {\"a\":2}\n\
        context 1:2\n1:2 {\"a\":2}\n",
    ),
    (
        "a message that comes again changes nothing",
        "sites 2\nput 1 k - {\"v\":1}\nput 2 k - {\"v\":2}\nsend 2 k\nrecv 1 1\nroot 1\nrecv 1 1\nrecv 1 1\n\
        recv 1 1\nroot 1\nget 1 k\n",
        "dot 1:1\ndot 2:1\nmessage 1\nok\n886da2412097c18c39ad0a4bd1827a9efe5d5c91c03b91a0b3b7b8c0a8a97000\nok\n\
        ok\nok\n886da2412097c18c39ad0a4bd1827a9efe5d5c91c03b91a0b3b7b8c0a8a97000\ncontext 1:1,2:1\n\
        1:1 {\"v\":1}\n2:1 {\"v\":2}\n",
    ),
    (
        "a put that was covered before it came stays invisible",
        "sites 2\nput 1 k 2:1 {\"v\":1}\nput 2 k - {\"v\":2}\nsend 2 k\nrecv 1 1\nget 1 k\n",
        "dot 1:1\ndot 2:1\nmessage 1\nok\ncontext 1:1,2:1\n1:1 {\"v\":1}\n",
    ),
];

const LIMITS: &[Case] = &[
    (
        "counters are used up",
        "sites 1\nput 1 k 1:0+281474976710655 {\"a\":1}\nget 1 k\n",
        "refused 8 Exhausted\ncontext -\n",
    ),
    (
        "a delete that saw nothing makes no key",
        "sites 1\nmax 1\ndel 1 k -\nget 1 k\nroot 1\nput 1 l - {}\n",
        "ok\ncontext -\n0000000000000000000000000000000000000000000000000000000000000000\ndot 1:1\n",
    ),
    (
        "values that are no documents",
        "sites 1\nput 1 k - []\nput 1 k - {\"a\":1.5}\nput 1 k - {\nput 1 k - [1.5]\n",
        "refused 4 NotObject\nrefused 5 BadNumber\nrefused 3 BadDocument\nrefused 4 NotObject\n",
    ),
    (
        "keys are limited, and a delete may make one",
        "sites 1\nmax 1\nput 1 a - {}\nput 1 b - {}\ndel 1 b -\ndel 1 b 1:1\nput 1 a @ {}\n",
        "dot 1:1\nrefused 10 Full\nok\nrefused 10 Full\ndot 1:2\n",
    ),
    (
        "documents are shown as compact text",
        "sites 1\nput 1 k - { \"b\" : 1, \"a\" : 2 }\nget 1 k\n",
        "dot 1:1\ncontext 1:1\n1:1 {\"a\":2,\"b\":1}\n",
    ),
    (
        "wide bases",
        "sites 2\nput 1 k 1:5000 {\"a\":1}\ndel 1 k 2:4097+4099\ndel 1 k 2:0+4098\nget 1 k\n",
        "dot 1:5001\nok\nok\ncontext 1:5001,2:4099\n1:5001 {\"a\":1}\n",
    ),
    (
        "a base of all counters",
        "sites 2\nput 1 k 2:281474976710655 {\"a\":1}\nsend 1 k\nrecv 2 1\nput 2 k @ {}\nget 2 k\n",
        "dot 1:1\nmessage 1\nok\nrefused 8 Exhausted\ncontext 1:1,2:281474976710655\n1:1 {\"a\":1}\n",
    ),
    (
        "forged contexts",
        "sites 2\nput 1 k 2:0+7 {\"v\":1}\nsend 1 k\nrecv 2 1\nput 2 k - {\"v\":2}\nget 2 k\n\
        put 1 k 2:8 {\"v\":3}\nsend 2 k\nrecv 1 2\nget 1 k\n",
        "dot 1:1\nmessage 1\nok\ndot 2:8\ncontext 1:1,2:0+7+8\n1:1 {\"v\":1}\n2:8 {\"v\":2}\ndot 1:2\nmessage 2\n\
        ok\ncontext 1:2,2:8\n1:1 {\"v\":1}\n1:2 {\"v\":3}\n",
    ),
    (
        "wide sites",
        "sites 1\nput 1 k 70000:2 {\"a\":1}\nget 1 k\nput 1 k 4294967296:1 {}\n",
        "dot 1:1\ncontext 1:1,70000:2\n1:1 {\"a\":1}\nrefused 2 BadContext\n",
    ),
];

const NODES: &[Case] = &[
    (
        "nodes of the hash tree, as SHA-256 gives them",
        "sites 1\nput 1 abc - {}\nnode 1 ba8\nnode 1 ba7\nnode 1 ba\nnode 1 -\n",
        "dot 1:1\n0000000000000000000000000000000000000000000000000000000000000000\n\
        57b496402e74bd3514d5dd13d7995b0795902e49914cd378b01c7a8a2b4da60e\n\
        96ca74c5aa29e21c3d4b099483b58f6a4e39d234021352d34735de76796e63d3\n\
        0bbd072618d939960857918444b01f18dddc3efa96f7b34854a4e6d4e866d107\n",
    ),
    (
        "paths that are none",
        "sites 1\nnode 1 xyz\nnode 1 BA7\nnode 1 ba77\nnode 1 \nroot 2\n",
        "refused 14 BadPath\nrefused 14 BadPath\nrefused 14 BadPath\nrefused 14 BadPath\nnone such\n",
    ),
];

const FORMS: &[Case] = &[
    ("an empty script", "", ""),
    (
        "comments and empty lines are skipped",
        "# a comment\n\nsites 1\n\n# another\nget 1 k",
        "context -\n",
    ),
    (
        "a site or message that is not there, before any refusal",
        "sites 1\nget 2 k\nget 0 k\nrecv 1 1\nput 2 \u{7f} x y\nsend 1 k\nrecv 1 2\nrecv 2 1\n",
        "none such\nnone such\nnone such\nnone such\nmessage 1\nnone such\nnone such\n",
    ),
    (
        "texts are read from left to right",
        "sites 1\nput 1  x y\nput 1 k x y\nput 1 k - y\nget 1 \n",
        "refused 1 BadKey\nrefused 2 BadContext\nrefused 3 BadDocument\nrefused 1 BadKey\n",
    ),
    (
        "contexts that are not in their one form",
        "sites 1\ndel 1 k 1:0\ndel 1 k 1:1+2\ndel 1 k 2:1,1:1\ndel 1 k 1:01\ndel 1 k 0:1\n",
        "refused 2 BadContext\nrefused 2 BadContext\nrefused 2 BadContext\nrefused 2 BadContext\n\
        refused 2 BadContext\n",
    ),
    (
        "the greatest site and number of keys",
        "sites 16\nmax 1000000\nput 16 k - {}\nget 18446744073709551615 k\n",
        "dot 16:1\nnone such\n",
    ),
];

#[test]
fn scripts_print_what_is_told(rt: HostRuntime) -> Result<(), Fail> {
    let tables = [
        BASICS, LIMITS, NODES, FORMS, CONTEXTS, DOCUMENTS, TERMS, INDEXES, VIEWS, KEYS, MEETINGS,
        REFUSALS,
    ];
    for cases in tables {
        all_print(rt.alloc(), cases)?;
    }
    Ok(())
}
