//! Sides that lie, and how a session with each of them ends.
use crate::peers::Counting;
use crate::two_sites::{meet, meet_within};
use mvd_dots::Refusal;
use mvd_keys::{Key, Path};
use mvd_peer::Page;
use mvd_sync::SyncFault;
use mvd_wire::Digests;
use std::alloc::Global;

/// What is wrong with a side that tells another digest at each question.
#[derive(Clone, Copy)]
pub enum Lie {
    /// Nodes without children above the buckets.
    NoChildren,
    /// No key at all under its nodes.
    NoKeys,
    /// The same key in each bucket.
    OneKey,
    /// The keys of a page fall.
    Falling,
    /// Each page of a bucket is the same.
    SamePage,
    /// More is to come after no key.
    MoreWithoutKey,
    /// Pages of one key, each after the last, that never end.
    OneKeyForEver,
    /// Two pages in each of a few buckets, and its question of this number is refused.
    RefusesAt(u64),
}

/// What a liar tells at a question of this number, which is never the digest of what holds no key.
fn digest(question: u64) -> [u8; 32] {
    [(question % 255 + 1) as u8; 32]
}

/// The digests of a node's children: of these so many tell that they hold a key.
fn children(lie: Lie, told: [u8; 32]) -> [[u8; 32]; 16] {
    let step = match lie {
        Lie::RefusesAt(_) => 4,
        Lie::OneKeyForEver => 16,
        _ => 1,
    };
    let mut children = [told; 16];
    for (digit, child) in children.iter_mut().enumerate() {
        if digit % step > 0 {
            *child = [0; 32];
        }
    }
    children
}

/// What a liar tells of a node.
pub fn node_of(lie: Lie, question: u64, path: &Path) -> Digests {
    let own = digest(question);
    if path.digits().len() == 3 || matches!(lie, Lie::NoChildren) {
        return Digests {
            own,
            children: None,
        };
    }
    Digests {
        own,
        children: Some(children(lie, own)),
    }
}

/// Adds these keys to a page.
fn add_keys(
    page: &mut Vec<(Key, [u8; 32])>,
    alloc: Global,
    question: u64,
    keys: &[&str],
) -> Result<(), Refusal> {
    for key in keys {
        page.push((Key::read(alloc, key)?, digest(question)))?;
    }
    Ok(())
}

/// A page of these keys.
fn page_with(alloc: Global, question: u64, keys: &[&str], more: bool) -> Result<Page, Refusal> {
    let mut page = Vec::new(alloc);
    add_keys(&mut page, alloc, question, keys)?;
    Ok((page, more))
}

/// A page of one key, which comes after all that was given.
fn next_page(alloc: Global, question: u64) -> Result<Page, Refusal> {
    let number = question.saturating_add(10_000_000);
    let key = format!(in alloc; "{number}")?;
    page_with(alloc, question, &[key.as_str()], true)
}

/// What a liar tells of a bucket, at the first page or after that.
pub fn page_of(alloc: Global, lie: Lie, question: u64, is_first: bool) -> Result<Page, Refusal> {
    match lie {
        Lie::NoChildren | Lie::NoKeys => page_with(alloc, question, &[], false),
        Lie::Falling => page_with(alloc, question, &["b", "a"], false),
        Lie::MoreWithoutKey => page_with(alloc, question, &[], true),
        Lie::OneKey => page_with(alloc, question, &["k"], false),
        Lie::SamePage => page_with(alloc, question, &["k"], true),
        Lie::RefusesAt(_) if is_first => page_with(alloc, question, &["k"], true),
        Lie::RefusesAt(_) => page_with(alloc, question, &["l"], false),
        Lie::OneKeyForEver => next_page(alloc, question),
    }
}

/// Whether a session with a liar on the other side ends so, and one that has it on the local side so.
fn end(
    site: &mut Counting,
    liar: &mut Counting,
    lie: Lie,
    other: Result<u64, SyncFault>,
    own: Result<u64, SyncFault>,
) -> bool {
    let alloc = site.alloc;
    liar.lie = Some(lie);
    liar.questions = 0;
    let is_so = meet(alloc, site, liar) == other;
    liar.questions = 0;
    is_so && meet(alloc, liar, site) == own
}

/// Whether a session with a liar of this kind is refused so, wherever the liar is.
fn is_refused(site: &mut Counting, liar: &mut Counting, lie: Lie, refusal: Refusal) -> bool {
    let other = Err(SyncFault::Peer(refusal));
    end(site, liar, lie, other, Err(SyncFault::Local(refusal)))
}

/// Pages and nodes out of form.
const OUT_OF_FORM: [Lie; 4] = [
    Lie::NoChildren,
    Lie::Falling,
    Lie::SamePage,
    Lie::MoreWithoutKey,
];

/// Whether a session with each of these is refused as 33.
pub fn are_out_of_form(site: &mut Counting, liar: &mut Counting) -> bool {
    for lie in OUT_OF_FORM {
        if !is_refused(site, liar, lie, Refusal::BadBody) {
            return false;
        }
    }
    true
}

/// Whether a session of a site that has one key with a liar goes over so many keys, and leaves the site as it was.
pub fn changes_nothing(
    site: &mut Counting,
    liar: &mut Counting,
    lie: Lie,
    keys: u64,
) -> Result<bool, Refusal> {
    site.put("k", "-", "{}")?;
    liar.lie = Some(lie);
    let before = site.root()?;
    let met = meet(site.alloc, site, liar);
    Ok(met == Ok(keys) && site.root()? == before)
}

/// What a session comes to where none of its questions is refused.
const WHOLE: u64 = 128;

/// How many questions of a session may be refused: each ends it as that side's refusal; past the last it ends well.
pub fn refusals(site: &mut Counting, liar: &mut Counting) -> Option<u64> {
    for n in 0..1_000u64 {
        let lie = Lie::RefusesAt(n.saturating_add(1));
        if end(site, liar, lie, Ok(WHOLE), Ok(WHOLE)) {
            return Some(n);
        }
        if !is_refused(site, liar, lie, Refusal::Store) {
            return None;
        }
    }
    None
}

/// Whether pages without end stop a session of at most a hundred questions to each side, on either side; and one of
/// which no number is said at ten million.
pub fn stop(site: &mut Counting, liar: &mut Counting) -> bool {
    let alloc = site.alloc;
    liar.lie = Some(Lie::OneKeyForEver);
    let other = meet_within(site, liar, 100);
    let at_other = liar.questions;
    let own = meet_within(liar, site, 100);
    let at_own = liar.questions;
    let most = meet(alloc, site, liar);
    let over = Err(SyncFault::Peer(Refusal::TooManyRequests));
    other == over
        && own == Err(SyncFault::Local(Refusal::TooManyRequests))
        && most == over
        && (at_other, at_own, liar.questions) == (100, 200, 10_000_200)
}
