//! What a request to change a key comes to behind a change of that key that waits to be put in.
ghost use Rattle.std.specs.Prelude.{◌≡◌, IfSome, None, Ok, false};
ghost use Rattle.mvd_kept.specs.declared.prepared.Prepared.TheVariants.{Change as Changed};
ghost use Rattle.mvd_site.specs.Over.{AsksToChange};
ghost use Rattle.mvd_replica.specs.Behind.{AreLast, ComesBehind, IsFree, IsLastBefore};
ghost use Rattle.mvd_replica.specs.Groups.{ComesAlone};

use crate::adding::key_asked;
use crate::waiting::Waiting;
use mvd_dots::Refusal;
use mvd_site::{Change, Prepared, Site};
use mvd_wire::Request;

/// Of the changes that wait the last of the key that a request asks to change.
pub fn last_change<'a, 'r>(
    group: &'a [Prepared],
    waiting: &Waiting<'r>,
    request: &'r Request,
) -> Option<&'a Change>
    requires { AreLast group.now waiting.now }
    ensures last { IfSome result (λ change. IsLastBefore group.now request.now change.now) }
    ensures none { result ≡ None → IsFree waiting.now request.now }
{
    let key = match key_asked(request) {
        Some(key) => key,
        None => return None,
    };
    let at = match waiting.place(key) {
        Some(at) => at,
        None => return None,
    };
    match &group[at] {
        Prepared::Change(change) => Some(change),
        Prepared::Answer(_) => unreachable!(),
    }
}

/// The change that was prepared, if it is one.
fn change_in(prepared: Result<Prepared, Refusal>) -> Option<Change>
    ensures { IfSome result (λ change. prepared ≡ Ok (Changed change)) }
{
    match prepared {
        Ok(Prepared::Change(change)) => Some(change),
        _ => None,
    }
}

/// What a request comes to behind that change, if it is a change both alone and then. So it may be refused with the
/// others where the store refuses their commit. `None` also where memory is refused.
pub fn follow(site: &Site, before: &Change, request: &Request) -> Option<Prepared>
    requires { AsksToChange before.now.key request.now }
    ensures alone { site.now.broken ≡ false →
        IfSome result (ComesAlone site.now.config site.now.states request.now) }
    ensures behind { IfSome result (ComesBehind site.now.config before.now request.now) }
{
    let Some(_own) = change_in(site.prepare(request)) else {
        return None;
    };
    let Some(change) = change_in(site.prepare_after(before, request)) else {
        return None;
    };
    // Here it is known that what comes in has a spelling, that its siblings' dots were seen, and that its key is one.
    let state = change.state();
    let _seen = state.context();
    let key = change.key();
    let _text = key.text();
    Some(Prepared::Change(change))
}
