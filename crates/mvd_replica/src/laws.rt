//! What holds of requests that share a commit, and of a site that is closed and opened again, each
//! law as the contract of an empty function.
ghost use Rattle.std.specs.Prelude.{List};
ghost use Rattle.std.specs.List.{AllByRecursion};
ghost use Rattle.mvd_wire.specs.Replies.{CanBeSent};
ghost use Rattle.mvd_site.specs.Held.{AreHeld};
ghost use Rattle.mvd_site.specs.Sites.{SiteValue};
ghost use Rattle.mvd_replica.specs.Batch.{TakesAllFrom};
ghost use Rattle.mvd_replica.specs.Groups.{AnswersOthersAlike};
ghost use Rattle.mvd_replica.specs.Restarts.{AnswersAcrossRestarts, LeavesWholeTurns, ServesInRun};
ghost use Rattle.mvd_replica.specs.Stops.{HoldsWhatIsLeft};
ghost use Rattle.mvd_replica.specs.Turns.{Turn};
ghost use Rattle.sqlite.specs.Held.{Held, state};

use sqlite::Alter;

/// A request at one key has the same answer after a change of another key, while there is room for a key more.
pub fn a_request_is_untouched_by_changes_of_others()
    ensures { AnswersOthersAlike }
{}

/// From states in form no reply of a turn is too long for its frame.
pub fn replies_fit_their_frames()
    ensures { (turns : List Turn) (old new : SiteValue) → AreHeld old.states → TakesAllFrom old new turns
        → AllByRecursion (λ turn. CanBeSent turn.reply) turns }
{}

/// A site that is closed and opened again, as often as one likes, with connections between: every
/// reply is one that may be given from the writes known then, and the last file holds states that
/// stand for all of them.
pub fn a_site_answers_across_restarts<S: Alter>()
    ensures answers { AnswersAcrossRestarts {C = Held S} (state S.Store) }
    // What `serve` promises of a connection is such turns of a run; what a host promises of its rounds
    // says so itself.
    ensures connection { ServesInRun S.Store }
{}

/// A stop after any turns, of connections, of rounds of many or of requests at once, or in the middle of them: what
/// it leaves in the files stands for all that the turns were told, and for what at most some of those requests were
/// to change that were refused with 21 or 22.
pub fn a_stop_leaves_whole_turns<S: Alter>()
    ensures turns { LeavesWholeTurns S.Store }
    // The next open finds what is left so.
    ensures found { HoldsWhatIsLeft }
{}
