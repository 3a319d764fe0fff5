//! Laws of many rounds, each as the contract of an empty function.
ghost use Rattle.std.specs.Prelude.{◌≡◌, ◌↔◌, ◌∷◌, ◌++◌, [], ℕ, List, Some, false, length, true};
ghost use Rattle.std.specs.List.{AllByRecursion};
ghost use Rattle.mvd_conn.specs.History.{History, after_next, last_bytes};
ghost use Rattle.mvd_conn.specs.Rights.{may};
ghost use Rattle.mvd_conn.specs.declared.right.Right.{Right};
ghost use Rattle.mvd_conn.specs.Stands.{IsLast, HistoryStands};
ghost use Rattle.mvd_host.specs.AtHand.{none_at_hand};
ghost use Rattle.mvd_host.specs.Course.{own};
ghost use Rattle.mvd_host.specs.Grown.{Grows};
ghost use Rattle.mvd_host.specs.Hosts.{HostValue, client_of, new_host};
ghost use Rattle.mvd_host.specs.Round.{IsIdle, Round, ServesAllFrom};
ghost use Rattle.mvd_host.specs.Runs.{Goes, Happening, HasRight, HasShown, HostMoment, OneList, Runs};
ghost use Rattle.mvd_host.specs.Runs.{TellsOwn, after_run, side_at, turns_in};
ghost use Rattle.mvd_host.specs.Within.{IsWithin};
ghost use Rattle.mvd_replica.specs.Turns.{IsToldElse, Replies, StandsOn, TellsTurns, Turn, TurnEvent};
ghost use Rattle.mvd_wire.specs.declared.request.Request.{Request};
ghost use Rattle.mvd_site.specs.Held.{AreHeld};
ghost use Rattle.mvd_site.specs.Sites.{SiteValue};
ghost use Rattle.sqlite.specs.Held.{Held, state};

use sqlite::Alter;

/// From a new host on, the turns of all rounds are those of one replica, one after the other. What each client asked
/// and was told, in frames or at hand, are its own turns of that list, in order. That holds whatever comes between the
/// rounds, and of a client of frames that went it holds as it was when it went.
pub fn rounds_are_one_list<S: Alter>()
    ensures list { (start : HostMoment (Held S)) (all : List (Happening (Held S))) →
        start.host ≡ new_host → start.hand ≡ none_at_hand → Runs (state S.Store) start all →
        OneList (turns_in all) (side_at (state S.Store) start) (side_at (state S.Store) (after_run start all)) }
    ensures gone { (start : HostMoment (Held S)) (before after : List (Happening (Held S)))
        (n : ℕ) (host : HostValue) (h : History) →
        start.host ≡ new_host → Runs (state S.Store) start before →
        Runs (state S.Store) (after_run start before) (Goes n host ∷ after) →
        client_of (after_run start before).host n ≡ Some h →
        TellsOwn (own n (turns_in (before ++ Goes n host ∷ after))) h }
{}

/// A client that has to show a token has no turn before a Hello with that of a pass, and each of its turns is one that the
/// right of that pass allows. Before its first turn nothing was told it but why its connection ended, which what came of it
/// decides, and no site.
pub fn none_before_the_token()
    ensures shown { (turns : List Turn) (h : History) → TellsOwn turns h → HasShown h.guard turns }
    ensures right { (turns : List Turn) (h : History) → TellsOwn turns h → HasRight h.guard turns }
    ensures told { (h : History) → TellsOwn [] h → HistoryStands h →
        (h.left ++ h.waits ≡ last_bytes h.last) × IsLast h h.last }
{}

/// What turns of rounds are from the writes known. From any that the site stood for, and for every choice of what the
/// turns added, each reply is one that may be given from the writes known before it; and the states stand afterwards
/// for all of them, also where the site is broken. There is such a choice. 22 is told only where the site is broken
/// afterwards.
pub fn turns_are_known()
    ensures replies { (turns : List Turn) (old new : SiteValue) → ServesAllFrom old new turns → Replies old new turns }
    ensures stands { (turns : List Turn) (old new : SiteValue) → ServesAllFrom old new turns → StandsOn old new turns }
    ensures choice { (turns : List Turn) (old new : SiteValue) → ServesAllFrom old new turns →
        (events : List TurnEvent) × TellsTurns events turns }
    ensures told { (turns : List Turn) (old new : SiteValue) → ServesAllFrom old new turns → new.broken ≡ false →
        AllByRecursion IsToldElse turns }
{}

/// Where each frame that was taken of a client was answered, it is idle just where a look at what comes next hands out no
/// frame, and leaves it as it is.
pub fn nothing_comes_of_the_idle()
    ensures { (h : History) → length h.answers ≡ length h.taken → IsIdle h ↔ (after_next h ≡ (false, h)) }
{}

/// Whatever clients ask in a round, and whatever they push, each key's state afterwards includes its state before: what
/// the site held it holds, or a write that had seen it replaced it.
pub fn rounds_only_grow<S: Alter>()
    ensures { (ready : List ℕ) (turns : List (ℕ × Turn)) (old new : HostMoment (Held S)) → AreHeld old.site.states →
        Round ready turns (side_at (state S.Store) old) (side_at (state S.Store) new) →
        Grows old.site.states new.site.states }
{}

/// What a right allows is answered from the keys that begin with its prefix alone, but for whether all places for keys are
/// taken; and it changes such a key, or nothing.
pub fn rights_bound_replies()
    ensures { (right : Right) (request : Request) → may right request ≡ true → IsWithin right request }
{}
