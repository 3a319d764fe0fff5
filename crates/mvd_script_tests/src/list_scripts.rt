//! Indexes and views, and lists of keys.
use crate::scripts::Case;

pub const INDEXES: &[Case] = &[
    (
        "terms are found and ranged over in their order",
        "sites 1\nindex n\nput 1 a - {\"n\":null}\nput 1 b - {\"n\":true}\nput 1 c - {\"n\":-1}\n\
        put 1 d - {\"n\":10}\nput 1 e - {\"n\":\"10\"}\nput 1 f - {\"n\":[1]}\nput 1 g - {}\nfind 1 n 10\n\
        find 1 n false\nrange 1 n [null,10]\nrange 1 n [10,null]\nfind 1 m 1\nfind 1 n x\n",
        "dot 1:1\ndot 1:1\ndot 1:1\ndot 1:1\ndot 1:1\ndot 1:1\ndot 1:1\nd 1:1\nnone\nnull a 1:1\ntrue b 1:1\n\
        -1 c 1:1\n10 d 1:1\nnone\nrefused 12 NoIndex\nrefused 15 BadTerm\n",
    ),
    (
        "field paths go through objects",
        "sites 1\nindex addr.city\nput 1 a - {\"addr\":{\"city\":\"Oslo\"}}\nput 1 b - {\"addr\":\"Oslo\"}\n\
        put 1 c - {\"addr.city\":\"Oslo\"}\nfind 1 addr.city \"Oslo\"\nfind 1 a..b 1\n",
        "dot 1:1\ndot 1:1\ndot 1:1\na 1:1\nrefused 37 BadDefs\n",
    ),
    (
        "a sibling that is superseded leaves its place",
        "sites 1\nindex n\nput 1 a - {\"n\":1}\nput 1 a - {\"n\":1}\nfind 1 n 1\nput 1 a @ {\"n\":2}\n\
        find 1 n 1\nfind 1 n 2\ndel 1 a @\nfind 1 n 2\n",
        "dot 1:1\ndot 1:2\na 1:1\na 1:2\ndot 1:3\nnone\na 1:3\nok\nnone\n",
    ),
];

pub const VIEWS: &[Case] = &[
    (
        "all siblings of a key count, and a row that is left by all goes",
        "sites 1\nview spend city amount\nput 1 a - {\"amount\":5,\"city\":\"Oslo\"}\n\
        put 1 a - {\"amount\":-7,\"city\":\"Oslo\"}\nput 1 b - {\"city\":\"Oslo\"}\nrows 1 spend\n\
        put 1 a @ {\"city\":\"Rome\"}\nput 1 b @ {\"city\":\"Rome\"}\nrows 1 spend\nrow 1 spend \"Oslo\"\n\
        row 1 other \"Oslo\"\n",
        "dot 1:1\ndot 1:2\ndot 1:1\n\"Oslo\" 3 -2 -7 5\ndot 1:3\ndot 1:2\n\"Rome\" 2 0 - -\n0 0 - -\n\
        refused 13 NoView\n",
    ),
    (
        "the least and the greatest number follow what comes and goes",
        "sites 1\nview v city n\nput 1 a - {\"city\":\"Oslo\",\"n\":5}\nput 1 b - {\"city\":\"Oslo\",\"n\":9}\n\
        put 1 c - {\"city\":\"Oslo\",\"n\":7}\nrows 1 v\ndel 1 b @\nrows 1 v\n\
        put 1 d - {\"city\":\"Oslo\",\"n\":5}\nrows 1 v\ndel 1 a @\nrows 1 v\n",
        "dot 1:1\ndot 1:1\ndot 1:1\n\"Oslo\" 3 21 5 9\nok\n\"Oslo\" 2 12 5 7\ndot 1:1\n\"Oslo\" 3 17 5 7\nok\n\
        \"Oslo\" 2 12 5 7\n",
    ),
    (
        "one put in place of two siblings",
        "sites 1\nview spend city amount\nindex city\nput 1 a - {\"amount\":5,\"city\":\"Oslo\"}\n\
        put 1 a - {\"amount\":-7,\"city\":\"Oslo\"}\nput 1 b - {\"city\":\"Oslo\"}\n\
        put 1 a @ {\"city\":\"Oslo\"}\nrows 1 spend\nfind 1 city \"Oslo\"\n",
        "dot 1:1\ndot 1:2\ndot 1:1\ndot 1:3\n\"Oslo\" 2 0 - -\na 1:3\nb 1:1\n",
    ),
];

pub const KEYS: &[Case] = &[
    (
        "keys are listed with their siblings, and those in conflict until they are resolved",
        "sites 2\nput 1 a - {}\nput 2 a - {\"v\":2}\nput 1 b - {}\nsync 1 2\nkeys 1\nconflicts 2\n\
        put 2 a @ {\"v\":3}\nconflicts 2\ndel 2 b @\nkeys 2\nkeys 2 b\nkeys 2 c\nconflicts 1\n",
        "dot 1:1\ndot 2:1\ndot 1:1\nkeys 2\na 2\nb 1\na 2\ndot 2:2\nnone\nok\na 1\nb 0\nb 0\nnone\na 2\n",
    ),
    (
        "a conflict comes with a message, and is resolved",
        "sites 2\nput 1 k - {\"v\":1}\nput 2 k - {\"v\":2}\nsend 2 k\nrecv 1 1\nget 1 k\nconflicts 1\n\
        put 1 k @ {\"v\":3}\nconflicts 1\nsync 1 2\nget 2 k\nkeys 2\n",
        "dot 1:1\ndot 2:1\nmessage 1\nok\ncontext 1:1,2:1\n1:1 {\"v\":1}\n2:1 {\"v\":2}\nk 2\ndot 1:2\nnone\n\
        keys 1\ncontext 1:2,2:1\n1:2 {\"v\":3}\nk 1\n",
    ),
    (
        "nothing is held",
        "sites 1\nkeys 1\nkeys 1 a\nconflicts 1\n",
        "none\nnone\nnone\n",
    ),
    (
        "keys rise by their bytes, and begin with all of a prefix",
        "sites 1\nput 1 b - {}\nput 1 aa - {}\nput 1 a.b - {}\nput 1 A - {}\nput 1 a - {}\nput 1 ab - {}\nkeys 1\n\
        keys 1 a\nkeys 1 a.\nkeys 1 ab\nkeys 1 abc\nkeys 1 A\n",
        "dot 1:1\ndot 1:1\ndot 1:1\ndot 1:1\ndot 1:1\ndot 1:1\nA 1\na 1\na.b 1\naa 1\nab 1\nb 1\na 1\na.b 1\naa 1\n\
        ab 1\na.b 1\nab 1\nnone\nA 1\n",
    ),
    (
        "a key that was only deleted is held, and a delete that saw nothing makes none",
        "sites 1\ndel 1 a 2:1\ndel 1 b -\nkeys 1\nconflicts 1\n",
        "ok\nok\na 0\nnone\n",
    ),
    (
        "a key with more siblings, of which a delete has seen some",
        "sites 1\nput 1 k - {}\nput 1 k - {}\nput 1 k - {}\nconflicts 1\ndel 1 k 1:1\nconflicts 1\ndel 1 k 1:2\n\
        conflicts 1\nkeys 1\n",
        "dot 1:1\ndot 1:2\ndot 1:3\nk 3\nok\nk 2\nok\nnone\nk 1\n",
    ),
    (
        "prefixes that are none, behind a site that is not there",
        "sites 1\nkeys 1 é\nkeys 1 a\u{7f}\nkeys 2 é\nkeys 2\nconflicts 2\nconflicts 0\n",
        "refused 1 BadKey\nrefused 1 BadKey\nnone such\nnone such\nnone such\nnone such\n",
    ),
];
