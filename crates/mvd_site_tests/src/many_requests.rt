//! The keys of a site, those in conflict, and many writes in one request.
use crate::asked_over_http::Row;

/// Many writes, and what is told of the keys then.
pub const MANY: &[Row] = &[
    (
        "POST",
        "/keys",
        None,
        b"{\"key\":\"b\",\"document\":{\"n\":1}}\n{\"key\":\"a\",\"document\":{\"n\":2}}\n{\"document\":{},\"key\":\"b\"}\n",
        200,
        "{\"dot\":\"1:1\"}\n{\"dot\":\"1:1\"}\n{\"dot\":\"1:2\"}\n",
    ),
    (
        "GET",
        "/keys",
        None,
        b"",
        200,
        "{\"keys\":[{\"key\":\"a\",\"siblings\":1},{\"key\":\"b\",\"siblings\":2}]}",
    ),
    (
        "GET",
        "/conflicts",
        None,
        b"",
        200,
        "{\"keys\":[{\"key\":\"b\",\"siblings\":2}]}",
    ),
    ("GET", "/conflicts?after=b", None, b"", 200, "{\"keys\":[]}"),
    (
        "POST",
        "/keys",
        None,
        b" {\"key\" : \"b\",\"context\":\"1:2\", \"document\": { \"z\":1, \"a\": [ ] } }\r\n{\"key\":\"a\",\"context\":\"1:1\"}",
        200,
        "{\"dot\":\"1:3\"}\n{}\n",
    ),
    (
        "GET",
        "/keys/b",
        None,
        b"",
        200,
        "{\"key\":\"b\",\"context\":\"1:3\",\"siblings\":[{\"dot\":\"1:3\",\"document\":{\"a\":[],\"z\":1}}]}",
    ),
    (
        "GET",
        "/keys?path=000",
        None,
        b"",
        200,
        "{\"keys\":[{\"key\":\"a\",\"siblings\":0},{\"key\":\"b\",\"siblings\":1}]}",
    ),
    (
        "GET",
        "/keys?x=1&y=2&z=3&prefix=%62&live=1",
        None,
        b"",
        200,
        "{\"keys\":[{\"key\":\"b\",\"siblings\":1}]}",
    ),
    (
        "GET",
        "/keys?live=1&prefix=a",
        None,
        b"",
        200,
        "{\"keys\":[]}",
    ),
    (
        "GET",
        "/keys?digests=1",
        None,
        b"",
        200,
        "{\"keys\":[{\"key\":\"a\",\"siblings\":0,\
        \"digest\":\"295635a0e46e5083d9bf811f77a3a2abfb3fdfa05bb3f750c4a6c16c32c51083\"},{\"key\":\"b\",\
        \"siblings\":1,\"digest\":\"ec45f7290824517307ee6cea62d0afc1fe0f826f5f590759a4096615488d34c3\"}]}",
    ),
    (
        "GET",
        "/keys?live=1&digests=1",
        None,
        b"",
        200,
        "{\"keys\":[{\"key\":\"b\",\"siblings\":1,\"digest\":\"ec45f7290824517307ee6cea62d0afc1fe0f826f5f590759a4096615488d34c3\"}]}",
    ),
    (
        "GET",
        "/keys?digests=2&prefix=b",
        None,
        b"",
        200,
        "{\"keys\":[{\"key\":\"b\",\"siblings\":1}]}",
    ),
    (
        "HEAD",
        "/keys?after=a",
        None,
        b"",
        200,
        "{\"keys\":[{\"key\":\"b\",\"siblings\":1}]}",
    ),
    ("POST", "/keys", None, b"", 200, ""),
];

/// Lines whose writes are refused, each by itself.
pub const REFUSED_LINES: &[Row] = &[
    (
        "POST",
        "/keys",
        None,
        b"{\"key\":\"a b\",\"document\":{}}\n{\"key\":\"c\",\"context\":\"1:0\"}\n\
          {\"key\":\"c\",\"document\":[]}\n{\"key\":\"c\",\"document\":{\"n\":1.5}}\n\
          {\"key\":\"c\",\"document\":{}}\n",
        200,
        "{\"refused\":1,\"name\":\"BadKey\"}\n{\"refused\":2,\"name\":\"BadContext\"}\n\
          {\"refused\":4,\"name\":\"NotObject\"}\n{\"refused\":5,\"name\":\"BadNumber\"}\n\
          {\"dot\":\"1:1\"}\n",
    ),
    (
        "POST",
        "/keys",
        None,
        b"{\"key\":\"c\",\"context\":\"-\"}",
        200,
        "{}\n",
    ),
];

const BAD_BODY: &str = "{\"refused\":33,\"name\":\"BadBody\"}";

const BAD_LINE: &str = "{\"refused\":33,\"name\":\"BadBody\",\"line\":1}";

/// Bodies of which nothing is done, since a line has another form.
pub const OTHER_LINES: &[Row] = &[
    (
        "POST",
        "/keys",
        None,
        b"{\"key\":\"k\",\"document\":{}}\n{\"key\":\"k\"}",
        400,
        "{\"refused\":33,\"name\":\"BadBody\",\"line\":2}",
    ),
    ("POST", "/keys", None, b"\n", 400, BAD_LINE),
    ("POST", "/keys", None, b"{}", 400, BAD_LINE),
    ("POST", "/keys", None, b"{\"document\":{}}", 400, BAD_LINE),
    (
        "POST",
        "/keys",
        None,
        b"{\"key\":1,\"document\":{}}",
        400,
        BAD_LINE,
    ),
    (
        "POST",
        "/keys",
        None,
        b"{\"key\":\"k\",\"context\":1,\"document\":{}}",
        400,
        BAD_LINE,
    ),
    (
        "POST",
        "/keys",
        None,
        b"{\"key\":\"k\",\"document\":{},\"more\":1}",
        400,
        BAD_LINE,
    ),
    ("POST", "/keys", None, b"{\"key\":\"k\",", 400, BAD_LINE),
    (
        "POST",
        "/keys",
        None,
        b"{\"key\":\"\xFF\",\"document\":{}}",
        400,
        BAD_LINE,
    ),
    ("GET", "/keys", None, b"", 200, "{\"keys\":[]}"),
    (
        "PUT",
        "/keys",
        None,
        b"",
        405,
        "{\"refused\":0,\"name\":\"MethodNotAllowed\"}",
    ),
    (
        "POST",
        "/conflicts",
        None,
        b"",
        405,
        "{\"refused\":0,\"name\":\"MethodNotAllowed\"}",
    ),
    (
        "GET",
        "/keys?prefix=a%20b",
        None,
        b"",
        400,
        "{\"refused\":1,\"name\":\"BadKey\"}",
    ),
    ("GET", "/changes?since=00", None, b"", 400, BAD_BODY),
    ("GET", "/changes?wait=61", None, b"", 400, BAD_BODY),
    ("GET", "/changes?wait=1s", None, b"", 400, BAD_BODY),
    ("GET", "/changes", None, b"", 200, "None 0"),
    (
        "GET",
        "/changes?wait=60&since=000102030405060708090a0b0c0d0e0f101112131415161718191a1b1c1d1e1F",
        None,
        b"",
        200,
        "31 60",
    ),
    (
        "GET",
        "/changes?prefix=a%20b",
        None,
        b"",
        400,
        "{\"refused\":1,\"name\":\"BadKey\"}",
    ),
    (
        "GET",
        "/changes?prefix=a%62&wait=1",
        None,
        b"",
        200,
        "None 1ab",
    ),
    (
        "GET",
        "/changes?states=1",
        None,
        b"",
        200,
        "None 0{\"root\":\"0000000000000000000000000000000000000000000000000000000000000000\",\
        \"keys\":[{\"key\":\"k\",\"context\":\"-\",\"siblings\":[]},{\"key\":\"none\",\"context\":\"-\",\
        \"siblings\":[]}],\"resync\":false}",
    ),
];
