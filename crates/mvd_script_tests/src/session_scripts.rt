//! Sessions of two sites.
use crate::scripts::Case;

pub const MEETINGS: &[Case] = &[
    (
        "each has a key that the other has not, and a second session finds nothing that differs",
        "sites 2\nput 1 a - {\"x\":1}\nput 2 b - {\"x\":2}\nsync 1 2\nget 1 b\nget 2 a\nsync 1 2\nsync 2 1\n",
        "dot 1:1\ndot 2:1\nkeys 2\ncontext 2:1\n2:1 {\"x\":2}\ncontext 1:1\n1:1 {\"x\":1}\nkeys 0\nkeys 0\n",
    ),
    (
        "what was put at both sites stands side by side at both",
        "sites 2\nput 1 k - {\"v\":1}\nput 2 k - {\"v\":2}\nsync 2 1\nget 1 k\nget 2 k\n",
        "dot 1:1\ndot 2:1\nkeys 1\ncontext 1:1,2:1\n1:1 {\"v\":1}\n2:1 {\"v\":2}\ncontext 1:1,2:1\n\
        1:1 {\"v\":1}\n2:1 {\"v\":2}\n",
    ),
    (
        "a delete comes to the site that still shows the key, and not back",
        "sites 2\nput 1 k - {\"v\":1}\nsync 1 2\ndel 2 k @\nsync 1 2\nget 1 k\nget 2 k\nsync 1 2\n",
        "dot 1:1\nkeys 1\nok\nkeys 1\ncontext 1:1\ncontext 1:1\nkeys 0\n",
    ),
    (
        "a put that a delete has not seen stays",
        "sites 2\nput 1 k - {\"v\":1}\nsync 1 2\ndel 2 k @\nput 1 k @ {\"v\":2}\nsync 2 1\nget 1 k\nget 2 k\n",
        "dot 1:1\nkeys 1\nok\ndot 1:2\nkeys 1\ncontext 1:2\n1:2 {\"v\":2}\ncontext 1:2\n1:2 {\"v\":2}\n",
    ),
    (
        "indexes and views follow what a session brings",
        "sites 2\nindex city\nview spend city amount\nput 1 a - {\"amount\":5,\"city\":\"Oslo\"}\n\
        put 2 b - {\"amount\":7,\"city\":\"Oslo\"}\nsync 1 2\nfind 1 city \"Oslo\"\nrows 2 spend\n",
        "dot 1:1\ndot 2:1\nkeys 2\na 1:1\nb 2:1\n\"Oslo\" 2 12 5 7\n",
    ),
    ("nothing is held", "sites 2\nsync 1 2\n", "keys 0\n"),
    (
        "a site that is not there, and a site with itself",
        "sites 2\nsync 1 1\nsync 1 3\nsync 3 1\nsync 0 1\nsync 1 0\nsync 1 18446744073709551615\n",
        "none such\nnone such\nnone such\nnone such\nnone such\nnone such\n",
    ),
];

pub const REFUSALS: &[Case] = &[
    (
        "both sides are full, and a key of either is left",
        "sites 2\nmax 2\nput 1 a - {}\nput 1 c - {}\nput 2 b - {}\nsync 1 2\nget 2 c\nget 1 b\nget 2 a\n",
        "dot 1:1\ndot 1:1\ndot 2:1\nkeys 1\nleft b 10 Full\nleft a 10 Full\ncontext 1:1\n1:1 {}\ncontext -\n\
        context -\n",
    ),
    (
        "the same from the other side",
        "sites 2\nmax 2\nput 1 a - {}\nput 1 c - {}\nput 2 b - {}\nsync 2 1\nget 2 c\nget 1 b\nget 2 a\n",
        "dot 1:1\ndot 1:1\ndot 2:1\nkeys 1\nleft b 10 Full\nleft a 10 Full\ncontext 1:1\n1:1 {}\ncontext -\n\
        context -\n",
    ),
];

/// Sessions in a ring, after which the three sites hold the same.
pub const RING: &str =
    "sites 3\nput 1 a - {\"v\":1}\nput 2 a - {\"v\":2}\nput 3 b 1:0+4 {\"v\":3}\nput 1 b - {\"v\":4}\n\
    del 2 c 3:2\nsync 1 2\nsync 2 3\nsync 3 1\nroot 1\nroot 2\nroot 3\n";
