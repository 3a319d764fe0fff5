//! Indexes, views, and the hash tree.
use crate::asked_over_http::Row;
use mvd_http::{Names, name_in, origin_in, stranger};
use std::alloc::AllocError;

/// Writes, and what an index and a view tell of them.
pub const LISTS: &[Row] = &[
    (
        "PUT",
        "/keys/a",
        None,
        b"{\"amount\":5,\"city\":\"Oslo\"}",
        201,
        "{\"dot\":\"1:1\",\"context\":\"1:1\"}",
    ),
    (
        "PUT",
        "/keys/a",
        None,
        b"{\"amount\":-7,\"city\":\"Oslo\"}",
        201,
        "{\"dot\":\"1:2\",\"context\":\"1:0+2\"}",
    ),
    (
        "PUT",
        "/keys/b",
        None,
        b"{\"city\":\"Rome\"}",
        201,
        "{\"dot\":\"1:1\",\"context\":\"1:1\"}",
    ),
    (
        "GET",
        "/index/city?is=%22Oslo%22",
        None,
        b"",
        200,
        "{\"places\":[{\"term\":\"Oslo\",\"key\":\"a\",\"dot\":\"1:1\"},{\"term\":\"Oslo\",\"key\":\"a\",\"dot\":\"1:2\"}]}",
    ),
    (
        "GET",
        "/index/city?from=0&to=%22Z%22&limit=9&sort=up&after=1:1%20a%20%22Oslo%22",
        None,
        b"",
        200,
        "{\"places\":[{\"term\":\"Oslo\",\"key\":\"a\",\"dot\":\"1:2\"},{\"term\":\"Rome\",\"key\":\"b\",\"dot\":\"1:1\"}]}",
    ),
    (
        "GET",
        "/views/spend/rows",
        None,
        b"",
        200,
        "{\"rows\":[{\"term\":\"Oslo\",\"count\":2,\"sum\":-2,\"least\":-7,\"greatest\":5},{\"term\":\"Rome\",\"count\":1,\"sum\":0}]}",
    ),
    (
        "GET",
        "/views/spend/rows?after=%22Oslo%22",
        None,
        b"",
        200,
        "{\"rows\":[{\"term\":\"Rome\",\"count\":1,\"sum\":0}]}",
    ),
    (
        "GET",
        "/views/spend/row?is=%22Rome%22",
        None,
        b"",
        200,
        "{\"term\":\"Rome\",\"count\":1,\"sum\":0}",
    ),
];

/// Questions that are refused, and one of the tree.
pub const OTHERS: &[Row] = &[
    (
        "GET",
        "/index/town?is=1",
        None,
        b"",
        404,
        "{\"refused\":12,\"name\":\"NoIndex\"}",
    ),
    (
        "GET",
        "/index/a..b?is=1",
        None,
        b"",
        404,
        "{\"refused\":12,\"name\":\"NoIndex\"}",
    ),
    (
        "GET",
        "/views/none/rows",
        None,
        b"",
        404,
        "{\"refused\":13,\"name\":\"NoView\"}",
    ),
    (
        "GET",
        "/index/city?from=1",
        None,
        b"",
        400,
        "{\"refused\":15,\"name\":\"BadTerm\"}",
    ),
    (
        "GET",
        "/index/city?is=1&after=x",
        None,
        b"",
        400,
        "{\"refused\":33,\"name\":\"BadBody\"}",
    ),
    (
        "GET",
        "/tree?path=A",
        None,
        b"",
        400,
        "{\"refused\":14,\"name\":\"BadPath\"}",
    ),
    ("GET", "/tree?path=000", None, b"", 200, "{\"keys\":[]}"),
];

/// A host and an origin, if a request names them, and what is told of them, if anything.
type Named = (Option<&'static [u8]>, Option<&'static [u8]>, &'static str);

const FOREIGN_HOST: &str = "{\"refused\":0,\"name\":\"ForeignHost\"}";

const FOREIGN_ORIGIN: &str = "{\"refused\":0,\"name\":\"ForeignOrigin\"}";

const NAMED: &[Named] = &[
    (Some(b"127.0.0.1:80"), None, ""),
    (Some(b"localhost"), Some(b"http://localhost"), ""),
    (Some(b"[::1]:8080"), Some(b"http://[::1]:8080"), ""),
    (Some(b"127.0.0.1"), Some(b"https://127.0.0.1"), ""),
    (None, None, ""),
    (Some(b"db.example"), None, ""),
    (Some(b"db.internal:8080"), Some(b"https://app.example"), ""),
    (Some(b"evil.example"), None, FOREIGN_HOST),
    (Some(b":80"), None, FOREIGN_HOST),
    (Some(b"db.example,db.internal"), None, FOREIGN_HOST),
    (
        Some(b"127.0.0.1"),
        Some(b"http://evil.example"),
        FOREIGN_ORIGIN,
    ),
    (
        Some(b"127.0.0.1"),
        Some(b"http://app.example"),
        FOREIGN_ORIGIN,
    ),
    (Some(b"127.0.0.1"), Some(b""), FOREIGN_ORIGIN),
    (None, Some(b"http://evil.example"), FOREIGN_ORIGIN),
];

/// What is told of a host and an origin by a server that has these names.
fn told_of(names: &Names, host: Option<&[u8]>, origin: Option<&[u8]>) -> &'static str {
    let name = match host {
        Some(host) => name_in(host),
        None => None,
    };
    match stranger(names, name, origin_in(host, origin)) {
        Some(fault) => fault.body(),
        None => "",
    }
}

#[test]
fn others_are_not_own(rt: HostRuntime) -> Result<(), AllocError> {
    let names = Names {
        hosts: String::from_str(rt.alloc(), "db.example,db.internal")?,
        origins: String::from_str(rt.alloc(), "https://app.example")?,
        any_host: false,
    };
    for (host, origin, wanted) in NAMED {
        assert!(rt; told_of(&names, *host, *origin) == *wanted, "{wanted}");
    }
    Ok(())
}
