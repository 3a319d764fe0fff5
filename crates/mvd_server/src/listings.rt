//! Pages of which more is told than the site's answer has: they are told at once, from the states as they are.
ghost use Rattle.std.specs.Prelude.{◌≡◌, [], Ok, OnOk, string_bytes};
ghost use Rattle.mvd_replica.specs.Replicas.{site_of};
ghost use Rattle.mvd_server.specs.Listings.{TellsListed, listed_of};
ghost use Rattle.mvd_web.specs.Inside.{web_of};

use crate::asks::reply_to;
use crate::metrics::Counts;
use crate::responding::{answer_of, refuse, respond};
use http::StatusCode;
use mvd_dots::Refusal;
use mvd_http::{Content, Holds, Question, push_listed};
use mvd_keys::{Key, KeyState};
use mvd_replica::Replica;
use mvd_site::Site;
use mvd_web::WebConnection;
use sqlite::Alter;
use std::alloc::Global;

/// The states that a site holds.
#[derive(Clone, Copy)]
pub(crate) struct SiteStates<'a> {
    pub site: &'a Site,
}

impl<'a> Holds for SiteStates<'a> {
    ghost use Rattle.mvd_dots.specs.declared.refusals.Refusal.TheVariants.{Broken, Memory};
    ghost use Rattle.mvd_site.specs.Answer.{state_at};
    ghost use Rattle.mvd_site.specs.FromStates.{unless_broken};

    ghost states = { λ held. state_at held.site.now.states };

    ghost refusal = { λ held. unless_broken held.site.now.broken Broken Memory };

    fn state_of(&self, key: &Key) -> Result<KeyState, Refusal> {
        self.site.get(key)
    }
}

/// Tells the request that waits its page.
pub(crate) fn tell_listed<S: Alter + Drop>(
    alloc: Global,
    web: &mut WebConnection,
    replica: &Replica<S>,
    counts: &mut Counts,
)
    ensures { TellsListed (site_of replica.now) (web_of web.old).asked (web_of web.old) (web_of web.new) }
{
    let mut body = String::new(alloc);
    let pushed = match web.asked() {
        Some(asked) => push_asked(alloc, replica.site(), &asked.question, &mut body),
        None => return,
    };
    match pushed {
        Ok(()) => {
            let answer = answer_of(StatusCode::OK, Content::Json);
            respond(web, counts, answer, body.as_str());
        }
        Err(refusal) => refuse(alloc, web, counts, refusal),
    }
}

fn push_asked(
    alloc: Global,
    site: &Site,
    question: &Result<Question, Refusal>,
    out: &mut String,
) -> Result<(), Refusal>
    requires { string_bytes out.old ≡ [] }
    ensures { OnOk result (listed_of site.now question.now ≡ Ok (string_bytes out.new)) }
{
    match question {
        Ok(Question::Listed(request, wanted)) => {
            let reply = reply_to(site, request)?;
            push_listed(alloc, &SiteStates { site }, *wanted, &reply, out)
        }
        _ => Err(Refusal::BadKind),
    }
}
