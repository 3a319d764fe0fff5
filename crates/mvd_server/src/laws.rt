//! Laws of what is told over HTTP, and of the clients' numbers, each as the contract of an empty function.
ghost use Rattle.std.specs.Prelude.{◌≡◌, ℕ, List, Option, Result, true};
ghost use Rattle.mvd_conn.specs.declared.right.Right.{Right};
ghost use Rattle.mvd_dots.specs.declared.refusals.Refusal.{Refusal};
ghost use Rattle.mvd_host.specs.Feeds.{FeedValue, told_since};
ghost use Rattle.mvd_host.specs.Lists.{IsListed, Lists};
ghost use Rattle.mvd_http.specs.declared.question.Followed.{Followed};
ghost use Rattle.mvd_http.specs.declared.question.Question.TheVariants.{Changes, Listed};
ghost use Rattle.mvd_http.specs.declared.question.Wanted.{Wanted};
ghost use Rattle.mvd_keys.specs.Writes.{Key};
ghost use Rattle.mvd_server.specs.Bounds.{LinesWithin, NewsWithin, PageWithin};
ghost use Rattle.mvd_server.specs.Numbers.{IsOneSocket};
ghost use Rattle.mvd_server.specs.Paths.{Path};
ghost use Rattle.mvd_server.specs.Rounds.{FeedLists, ServeStep, World};
ghost use Rattle.mvd_site.specs.Held.{States};
ghost use Rattle.mvd_web.specs.Rights.{may_ask};
ghost use Rattle.mvd_wire.specs.declared.request.Request.{Request};
ghost use Rattle.mvd_wire.specs.declared.request.Request.TheVariants.{Keys};
ghost use Rattle.sqlite.specs.Held.{Held, state};

use crate::sockets::Sockets;
use sqlite::Alter;

/// What a right allows to be asked in a list, as a page or as changes is told from the keys that begin with its prefix
/// alone, but for whether all places for keys are taken, and for the root from which changes are asked again.
pub fn rights_bound_lists()
    ensures lines { (right : Right) (asks : List (Result Request Refusal)) → LinesWithin right asks }
    ensures page { (right : Right) (prefix : List ℕ) (after : Option Key) (wanted : Wanted) →
        may_ask right (Listed (Keys prefix after) wanted) ≡ true →
        PageWithin right (Listed (Keys prefix after) wanted) }
    ensures news { (right : Right) (since : Option (List ℕ)) (wait : ℕ) (followed : Followed) →
        may_ask right (Changes since wait followed) ≡ true → NewsWithin right followed }
{}

/// Through all that a server does, its feed lists what changed: the site had states with each root that the feed
/// remembers, and from each of them on all keys that changed were noted. So what is told of a root names each key that
/// begins with the prefix and changed since, up to the root that is told with it. A feed that knows nothing lists nothing.
pub fn changes_tell_all<K: Sockets, S: Alter>()
    ensures lists { (old new : World K (Held S)) → Path (ServeStep (state S.Store) K.Sockets) old new →
        FeedLists old → FeedLists new }
    ensures told { (feed : FeedValue) (past : List States) (now : States) (prefix root : List ℕ) →
        Lists feed past now → IsListed prefix root past (told_since feed prefix root) }
{}

/// A number is one socket for good: once a socket was taken over under it, as one came who got that number, no other is,
/// while the server runs.
pub fn a_number_is_one_socket<K: Sockets, S: Alter>()
    ensures { (n : ℕ) → IsOneSocket (state S.Store) K.Sockets n }
{}
