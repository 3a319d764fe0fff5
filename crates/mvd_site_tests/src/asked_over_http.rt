//! A site, asked over HTTP.
use crate::key_requests::{ESCAPES, REFUSALS, WRITES};
use crate::list_requests::{LISTS, OTHERS};
use crate::many_requests::{MANY, OTHER_LINES, REFUSED_LINES};
use crate::page_requests::PAGES;
use crate::state_requests::{REFUSED_STATES, STATES};
use mvd_docs::{Field, ViewName};
use mvd_dots::Refusal;
use mvd_http::{
    Fault, Followed, Holds, Question, Spelling, Wanted, live_response_of, misread_response,
    push_bad_line, push_changed, push_line, push_listed, push_refused, push_told, question_of,
    refused_response, response_of, texts_response_of,
};
use mvd_keys::{Key, KeyState};
use mvd_rows::Defs;
use mvd_site::{Config, Site};
use mvd_wire::{Reply, Request};
use std::alloc::Global;
use std::test::Fail;

/// A request: its method, its target, its context and its body; and what it is told: the status and the body.
pub type Row = (
    &'static str,
    &'static str,
    Option<&'static str>,
    &'static [u8],
    u16,
    &'static str,
);

/// An index on `city`.
fn add_index(alloc: Global, defs: &mut Defs) -> Result<(), Refusal> {
    defs.index(Field::read(alloc, "city")?)?;
    Ok(())
}

/// A view by it.
fn add_view(alloc: Global, defs: &mut Defs) -> Result<(), Refusal> {
    let name = ViewName::read(alloc, "spend")?;
    let group = Field::read(alloc, "city")?;
    defs.view(name, group, Field::read(alloc, "amount")?)?;
    Ok(())
}

/// An index of cities, and a view of what is spent in each.
pub fn by_city(alloc: Global) -> Result<Defs, Refusal> {
    let mut defs = Defs::new(alloc);
    add_index(alloc, &mut defs)?;
    add_view(alloc, &mut defs)?;
    Ok(defs)
}

fn site(alloc: Global) -> Result<Site, Refusal> {
    Site::new(alloc, Config::new(1, 9, by_city(alloc)?))
}

/// What the site answers. Nothing is claimed of it, so that a test's proof carries no answer's meaning.
fn answered(site: &mut Site, request: &Request) -> Reply {
    site.answer(request)
}

fn asked_of(
    alloc: Global,
    site: &mut Site,
    request: &Request,
    out: &mut String,
) -> Result<u16, Refusal> {
    let reply = answered(site, request);
    Ok(response_of(alloc, request, &reply, out)?)
}

/// The same, without the keys that have no sibling.
fn live_of(
    alloc: Global,
    site: &mut Site,
    request: &Request,
    out: &mut String,
) -> Result<u16, Refusal> {
    let reply = answered(site, request);
    Ok(live_response_of(alloc, request, &reply, out)?)
}

/// The same, with documents as their texts.
fn texts_of(
    alloc: Global,
    site: &mut Site,
    request: &Request,
    out: &mut String,
) -> Result<u16, Refusal> {
    let reply = answered(site, request);
    Ok(texts_response_of(alloc, request, &reply, out)?)
}

/// The states that a site holds.
#[derive(Clone, Copy)]
struct SiteStates<'a> {
    site: &'a Site,
}

impl<'a> Holds for SiteStates<'a> {
    ghost use Rattle.mvd_dots.specs.declared.refusals.Refusal.TheVariants.{Broken, Memory};
    ghost use Rattle.mvd_site.specs.Answer.{state_at};
    ghost use Rattle.mvd_site.specs.FromStates.{unless_broken};

    ghost states = { λ held. state_at held.site.now.states };

    ghost refusal = { λ held. unless_broken held.site.now.broken Broken Memory };

    fn state_of(&self, key: &Key) -> Result<KeyState, Refusal> {
        self.site.get(key)
    }
}

/// The same, with more of each key.
fn listed_of(
    alloc: Global,
    site: &mut Site,
    request: &Request,
    wanted: Wanted,
    out: &mut String,
) -> Result<u16, Refusal> {
    let reply = answered(site, request);
    push_listed(alloc, &SiteStates { site }, wanted, &reply, out)?;
    Ok(200)
}

/// Each question in turn.
fn lines_of(
    alloc: Global,
    site: &mut Site,
    asks: &[Result<Request, Refusal>],
    spelling: Spelling,
    out: &mut String,
) -> Result<u16, Refusal> {
    for ask in asks {
        match ask {
            Ok(request) => push_told(alloc, request, spelling, &answered(site, request), out)?,
            Err(refusal) => push_refused(out, *refusal)?,
        }
        out.push_str("\n")?;
    }
    Ok(200)
}

/// That a line has another form.
fn tell_line(out: &mut String, line: u64) -> Result<u16, Refusal> {
    push_bad_line(out, line)?;
    Ok(400)
}

/// Each write in turn.
fn all_of(
    site: &mut Site,
    items: &[Result<Request, Refusal>],
    out: &mut String,
) -> Result<u16, Refusal> {
    for item in items {
        match item {
            Ok(request) => push_line(out, &answered(site, request))?,
            Err(refusal) => push_line(out, &Reply::Refused(*refusal))?,
        }
    }
    Ok(200)
}

fn tell(out: &mut String, fault: Fault) -> Result<u16, Refusal> {
    out.push_str(fault.body())?;
    Ok(fault.status().as_u16())
}

/// The last byte of a root, and the seconds.
fn tell_wait(out: &mut String, since: Option<[u8; 32]>, wait: u32) -> Result<(), Refusal> {
    match since {
        Some(root) => {
            let last = root[31];
            write!(out, "{last} {wait}")?;
        }
        None => write!(out, "None {wait}")?,
    }
    Ok(())
}

/// These, and of which keys; for states, those of these keys.
fn tell_since(
    alloc: Global,
    site: &Site,
    out: &mut String,
    since: Option<[u8; 32]>,
    wait: u32,
    followed: &Followed,
) -> Result<u16, Refusal> {
    tell_wait(out, since, wait)?;
    out.push_str(followed.prefix.text())?;
    if followed.states.is_some() {
        let keys = Vec::from_array(alloc, [Key::read(alloc, "k")?, Key::read(alloc, "none")?])?;
        push_changed(
            alloc,
            &SiteStates { site },
            followed.states,
            [0; 32],
            &keys,
            out,
        )?;
    }
    Ok(200)
}

fn told(
    alloc: Global,
    site: &mut Site,
    asked: &Question,
    out: &mut String,
) -> Result<u16, Refusal> {
    match asked {
        Question::Ask(request) => asked_of(alloc, site, request, out),
        Question::Live(request) => live_of(alloc, site, request, out),
        Question::Texts(request) => texts_of(alloc, site, request, out),
        Question::Listed(request, wanted) => listed_of(alloc, site, request, *wanted, out),
        Question::Many(items) => all_of(site, items.as_slice(), out),
        Question::Asks(asks, spelling) => lines_of(alloc, site, asks.as_slice(), *spelling, out),
        Question::BadLine(line) => tell_line(out, *line),
        Question::Changes(since, wait, followed) => {
            tell_since(alloc, site, out, *since, *wait, followed)
        }
        Question::TooLong => tell(out, Fault::ContentTooLarge),
        Question::Misread(refusal, place) => Ok(misread_response(out, *refusal, place)?),
        Question::Nowhere => tell(out, Fault::NotFound),
        Question::NotAllowed(_) => tell(out, Fault::MethodNotAllowed),
        Question::Stop => Ok(202),
        _ => Ok(200),
    }
}

/// What is asked. Nothing is claimed of it, as of the answer.
fn question(alloc: Global, row: &Row) -> Result<Question, Refusal> {
    let context = match row.2 {
        Some(text) => Some(text.as_bytes()),
        None => None,
    };
    question_of(alloc, row.0.as_bytes(), row.1.as_bytes(), context, row.3)
}

fn refused(out: &mut String, refusal: Refusal) -> Result<u16, Refusal> {
    Ok(refused_response(out, refusal)?)
}

/// The status that a request is told.
fn status_of(alloc: Global, site: &mut Site, row: &Row, out: &mut String) -> Result<u16, Refusal> {
    let asked = question(alloc, row);
    let status = match &asked {
        Ok(asked) => told(alloc, site, asked, out),
        Err(refusal) => refused(out, *refusal),
    };
    drop(asked);
    status
}

/// Whether a request is told just that.
fn is_told(alloc: Global, site: &mut Site, row: &Row) -> Result<bool, Refusal> {
    let mut out = String::new(alloc);
    let status = status_of(alloc, site, row, &mut out)?;
    Ok(status == row.4 && out.as_str() == row.5)
}

/// How many requests, from the first on, a site tells what they are to be told.
fn told_by(alloc: Global, site: &mut Site, rows: &[Row]) -> Result<usize, Refusal> {
    for (place, row) in rows.iter().enumerate() {
        if !is_told(alloc, site, row)? {
            return Ok(place);
        }
    }
    Ok(rows.len())
}

/// The same of a new site.
fn told_well(alloc: Global, rows: &[Row]) -> Result<usize, Refusal> {
    let mut site = site(alloc)?;
    let told = told_by(alloc, &mut site, rows);
    drop(site);
    told
}

#[test]
fn requests_are_told(rt: HostRuntime) -> Result<(), Fail> {
    for rows in [
        WRITES,
        ESCAPES,
        REFUSALS,
        LISTS,
        OTHERS,
        PAGES,
        MANY,
        REFUSED_LINES,
        OTHER_LINES,
        STATES,
        REFUSED_STATES,
    ] {
        let told = told_well(rt.alloc(), rows)?;
        assert!(rt; told == rows.len(), "{told}");
    }
    Ok(())
}

/// A list of so many writes.
fn lines(alloc: Global, count: usize) -> Result<String, Refusal> {
    let mut body = String::new(alloc);
    for _ in 0..count {
        body.push_str("{\"key\":\"k\",\"context\":\"-\"}\n")?;
    }
    Ok(body)
}

/// Whether so many writes are too many.
fn are_too_many(alloc: Global, count: usize) -> Result<bool, Refusal> {
    let body = lines(alloc, count)?;
    let asked = question_of(alloc, b"POST", b"/keys", None, body.as_bytes())?;
    Ok(matches!(asked, Question::TooLong))
}

#[test]
fn a_thousand_lines_are_the_most(rt: HostRuntime) -> Result<(), Fail> {
    assert!(rt; !are_too_many(rt.alloc(), 1_000)?);
    assert!(rt; are_too_many(rt.alloc(), 1_001)?);
    Ok(())
}
