//! What is told at once, of what the server keeps.
ghost use Rattle.std.specs.Prelude.{◌≡◌, ◌++◌, ℕ, OnOk, string_bytes};
ghost use Rattle.mvd_http.specs.declared.fields.Content.TheVariants.{Plain};
ghost use Rattle.mvd_replica.specs.Replicas.{site_of};
ghost use Rattle.mvd_server.specs.Errands.{TellsHealth, TellsRoot, root_text};
ghost use Rattle.mvd_server.specs.Responding.{TellsBody};
ghost use Rattle.mvd_web.specs.Inside.{web_of};

use crate::metrics::{Counts, Now};
use crate::responding::{answer_of, refuse, respond, tell_pushed};
use http::StatusCode;
use mvd_dots::Refusal;
use mvd_http::{Content, Totals, push_root};
use mvd_replica::Replica;
use mvd_web::WebConnection;
use sqlite::Alter;
use std::alloc::Global;

const READY: &str = "{\"ready\":true}";

/// Tells the root, the numbers of keys, and the site.
pub(crate) fn tell_root<S: Alter + Drop>(
    alloc: Global,
    web: &mut WebConnection,
    replica: &Replica<S>,
    counts: &mut Counts,
)
    ensures { TellsRoot (site_of replica.now) (web_of web.old) (web_of web.new) }
{
    let mut body = String::new(alloc);
    let pushed = push_root_of(alloc, replica, counts, &mut body);
    tell_pushed(alloc, web, pushed, body.as_str(), counts);
}

fn push_root_of<S: Alter + Drop>(
    alloc: Global,
    replica: &Replica<S>,
    counts: &mut Counts,
    body: &mut String,
) -> Result<(), Refusal>
    ensures { OnOk result ((live : ℕ) ×
        (string_bytes body.new ≡ string_bytes body.old ++ root_text (site_of replica.now) live)) }
{
    let digest = replica.root()?;
    let found = counts.census.found(alloc, replica.site(), digest)?;
    let totals = Totals {
        keys: u64::from(replica.key_count()),
        live: found.live,
        conflicts: u64::from(replica.conflict_count()),
    };
    push_root(alloc, body, digest, totals, replica.config().site())
}

/// Tells that the server can answer, unless its site is broken.
pub(crate) fn tell_health<S: Alter + Drop>(
    alloc: Global,
    web: &mut WebConnection,
    replica: &Replica<S>,
    counts: &mut Counts,
)
    ensures { TellsHealth (site_of replica.now) (web_of web.old) (web_of web.new) }
{
    match replica.root() {
        Ok(_) => respond(web, counts, answer_of(StatusCode::OK, Content::Json), READY),
        Err(refusal) => refuse(alloc, web, counts, refusal),
    }
}

/// Tells counts.
pub(crate) fn tell_metrics<S: Alter + Drop>(
    alloc: Global,
    web: &mut WebConnection,
    replica: &Replica<S>,
    counts: &mut Counts,
)
    ensures { TellsBody Plain (web_of web.old) (web_of web.new) }
{
    let mut body = String::new(alloc);
    counts.census.go_on(alloc, replica.site());
    let config = replica.config();
    let now = Now {
        site: config.site(),
        max_keys: config.max_keys(),
        keys: replica.key_count(),
        conflicts: replica.conflict_count(),
        commits: replica.commits(),
    };
    match counts.print(now, &mut body) {
        Ok(()) => respond(
            web,
            counts,
            answer_of(StatusCode::OK, Content::Plain),
            body.as_str(),
        ),
        Err(refusal) => refuse(alloc, web, counts, refusal),
    }
}
