//! States in lists: pushed, and asked for.
use crate::asked_over_http::Row;

const BAD_LINE: &str = "{\"refused\":33,\"name\":\"BadBody\",\"line\":1}";

const ADA: &str =
    "{\"key\":\"ada\",\"context\":\"2:1,3:2\",\"siblings\":[{\"dot\":\"2:1\",\"document\":{\"a\":1,\"b\":2}},{\"dot\":\"3:2\",\"document\":{}}]}";

/// States that are pushed, twice, and what is told of them then.
pub const STATES: &[Row] = &[
    (
        "POST",
        "/push",
        None,
        b"{\"key\":\"ada\",\"context\":\"2:1,3:2\",\"siblings\":[{\"dot\":\"2:1\",\"document\":{ \"b\" : 2, \"a\":1 }},{\"dot\":\"3:2\",\"text\":\"{ }\"}]}\n\
          {\"siblings\":[],\"context\":\"1:1\",\"key\":\"bob\"}\n",
        200,
        "{}\n{}\n",
    ),
    (
        "POST",
        "/push",
        None,
        b"{\"key\":\"ada\",\"context\":\"2:1\",\"siblings\":[{\"dot\":\"2:1\",\"text\":\"{\\\"b\\\":2,\\\"a\\\":1}\"}]}",
        200,
        "{}\n",
    ),
    ("GET", "/keys/ada", None, b"", 200, ADA),
    (
        "POST",
        "/get",
        None,
        b"\"ada\"\n \"nobody\" \r\n\"b\\u006fb\"\n\"a b\"\n",
        200,
        "{\"key\":\"ada\",\"context\":\"2:1,3:2\",\"siblings\":[{\"dot\":\"2:1\",\"document\":{\"a\":1,\"b\":2}},{\"dot\":\"3:2\",\"document\":{}}]}\n\
         {\"key\":\"nobody\",\"context\":\"-\",\"siblings\":[]}\n\
         {\"key\":\"bob\",\"context\":\"1:1\",\"siblings\":[]}\n\
         {\"refused\":1,\"name\":\"BadKey\"}\n",
    ),
    ("POST", "/get", None, b"", 200, ""),
    ("POST", "/push", None, b"", 200, ""),
    (
        "GET",
        "/tree?paths=fff%2Cabc",
        None,
        b"",
        200,
        "{\"path\":\"fff\",\"keys\":[]}\n{\"path\":\"abc\",\"keys\":[]}\n",
    ),
    (
        "GET",
        "/tree?paths=ff,0g",
        None,
        b"",
        400,
        "{\"refused\":14,\"name\":\"BadPath\"}",
    ),
    (
        "GET",
        "/tree?paths=,,,,,,,,,,,,,,,,,,,,,,,,,,,,,,,,,,,,,,,,,,,,,,,,,,,,,,,,,,,,,,,,",
        None,
        b"",
        400,
        "{\"refused\":14,\"name\":\"BadPath\"}",
    ),
];

/// States that are refused, each by itself; of a list with a line of another form nothing is done.
pub const REFUSED_STATES: &[Row] = &[
    (
        "POST",
        "/push",
        None,
        b"{\"key\":\"a b\",\"context\":\"-\",\"siblings\":[]}\n\
          {\"key\":\"k\",\"context\":\"1:0\",\"siblings\":[]}\n\
          {\"key\":\"k\",\"context\":\"1:1\",\"siblings\":[{\"dot\":\"1:2\",\"document\":{}}]}\n\
          {\"key\":\"k\",\"context\":\"1:2\",\"siblings\":[{\"dot\":\"1:2\",\"document\":{}},{\"dot\":\"1:1\",\"document\":{}}]}\n\
          {\"key\":\"k\",\"context\":\"1:1\",\"siblings\":[{\"dot\":\"1\",\"document\":{}}]}\n\
          {\"key\":\"k\",\"context\":\"1:1\",\"siblings\":[{\"dot\":\"1:1\",\"document\":[]}]}\n\
          {\"key\":\"k\",\"context\":\"1:1\",\"siblings\":[{\"dot\":\"1:1\",\"text\":\"{\"}]}\n\
          {\"key\":\"k\",\"context\":\"1:1\",\"siblings\":[{\"dot\":\"1:1\",\"document\":{\"n\":1}}]}\n\
          {\"key\":\"k\",\"context\":\"1:1\",\"siblings\":[{\"dot\":\"1:1\",\"document\":{\"n\":2}}]}",
        200,
        "{\"refused\":1,\"name\":\"BadKey\"}\n{\"refused\":2,\"name\":\"BadContext\"}\n\
          {\"refused\":33,\"name\":\"BadBody\"}\n{\"refused\":33,\"name\":\"BadBody\"}\n\
          {\"refused\":33,\"name\":\"BadBody\"}\n{\"refused\":4,\"name\":\"NotObject\"}\n\
          {\"refused\":3,\"name\":\"BadDocument\"}\n{}\n{\"refused\":11,\"name\":\"DotClash\"}\n",
    ),
    (
        "POST",
        "/push",
        None,
        b"{\"key\":\"a\",\"context\":\"-\"}",
        400,
        BAD_LINE,
    ),
    (
        "POST",
        "/push",
        None,
        b"{\"key\":\"a\",\"context\":\"-\",\"siblings\":[],\"more\":1}",
        400,
        BAD_LINE,
    ),
    (
        "POST",
        "/push",
        None,
        b"{\"key\":\"a\",\"context\":\"-\",\"siblings\":[{\"dot\":\"1:1\"}]}",
        400,
        BAD_LINE,
    ),
    (
        "POST",
        "/push",
        None,
        b"{\"key\":\"a\",\"context\":\"-\",\"siblings\":[{\"dot\":\"1:1\",\"document\":{},\"text\":\"{}\"}]}",
        400,
        BAD_LINE,
    ),
    (
        "POST",
        "/push",
        None,
        b"{\"key\":\"a\",\"context\":\"1:1\",\"siblings\":[{\"dot\":\"1:1\",\"document\":{}}]}\n[]\n",
        400,
        "{\"refused\":33,\"name\":\"BadBody\",\"line\":2}",
    ),
    (
        "POST",
        "/get",
        None,
        b"\"a\"\n1\n",
        400,
        "{\"refused\":33,\"name\":\"BadBody\",\"line\":2}",
    ),
    ("POST", "/get", None, b"\n", 400, BAD_LINE),
    (
        "GET",
        "/keys/a",
        None,
        b"",
        404,
        "{\"key\":\"a\",\"context\":\"-\",\"siblings\":[]}",
    ),
    (
        "GET",
        "/push",
        None,
        b"",
        405,
        "{\"refused\":0,\"name\":\"MethodNotAllowed\"}",
    ),
    (
        "PUT",
        "/get",
        None,
        b"",
        405,
        "{\"refused\":0,\"name\":\"MethodNotAllowed\"}",
    ),
];
