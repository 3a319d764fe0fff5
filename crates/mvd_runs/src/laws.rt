//! What is asked of a stored site is a behaviour of the store, each law as the contract of an empty function.
ghost use Rattle.std.specs.Prelude.{◌≡◌, ℕ, false, true, List, [], ◌∷◌, ◌++◌, map, Result, Ok};
ghost use Rattle.std.specs.List.{AllByRecursion};
ghost use Rattle.mvd_dots.specs.declared.refusals.Refusal.{Refusal};
ghost use Rattle.mvd_keys.specs.State.{IsValid, State};
ghost use Rattle.mvd_keys.specs.Writes.{Key};
ghost use Rattle.mvd_wire.specs.declared.request.Request.{Request};
ghost use Rattle.mvd_wire.specs.declared.request.Request.TheVariants.{Get};
ghost use Rattle.mvd_wire.specs.declared.reply.Reply.{Reply};
ghost use Rattle.mvd_wire.specs.declared.reply.Reply.TheVariants.{State as Shown};
ghost use Rattle.mvd_site.specs.Answer.{is_question};
ghost use Rattle.mvd_site.specs.Config.{ConfigValue};
ghost use Rattle.mvd_site.specs.FromStates.{push_reply};
ghost use Rattle.mvd_site.specs.Held.{state_at};
ghost use Rattle.mvd_site.specs.Known.{IsValidRequest};
ghost use Rattle.mvd_site.specs.Sites.{SiteValue};
ghost use Rattle.mvd_peer.specs.PushedStates.{ComesByPushes, Each};
ghost use Rattle.mvd_model.specs.TheStore.{Knows, Next, Promise, Told};
ghost use Rattle.mvd_replica.specs.Asks.{TellsAnswer};
ghost use Rattle.mvd_replica.specs.Batch.{AnswersAll, TakesTurns};
ghost use Rattle.mvd_replica.specs.Commits.{AnswersInCommits, SharesCommit};
ghost use Rattle.mvd_replica.specs.File.{IsFoundAt};
ghost use Rattle.mvd_replica.specs.FileCalls.{ClosesInto, OpensAsSite};
ghost use Rattle.mvd_replica.specs.Pushes.{push_of};
ghost use Rattle.mvd_replica.specs.ReplicaCalls.{PushesState, ReplicaAnswers};
ghost use Rattle.mvd_replica.specs.Replicas.{site_of, store_of, stored_by, stored_of};
ghost use Rattle.mvd_replica.specs.Restarts.{Run};
ghost use Rattle.mvd_replica.specs.Restored.{HasWrites};
ghost use Rattle.mvd_replica.specs.Sides.{SideFollows};
ghost use Rattle.mvd_replica.specs.Turns.{Turn};
ghost use Rattle.mvd_replica.specs.declared.replica.Replica.{Replica};
ghost use Rattle.sqlite.specs.Effect.{Database};
ghost use Rattle.sqlite.specs.Files.{HoldsDatabase, IsEmpty, image_of};
ghost use Rattle.sqlite.specs.Held.{Held, state};
ghost use Rattle.sqlite.specs.Recovery.{Image};
ghost use Rattle.sqlite.specs.State.{HasCleanDisk};
ghost use Rattle.sqlite.specs.Tree.{Trees};
ghost use Rattle.sqlite.specs.WalFiles.{outcomes};
ghost use Rattle.sqlite.specs.WalReads.{AreClean};
ghost use Rattle.mvd_runs.specs.Calls.{all_turns};
ghost use Rattle.mvd_runs.specs.Events.{AreEvents, AreTurns, IsSiteKnown};
ghost use Rattle.mvd_runs.specs.Files.{AreChained, Begins, CarriedRuns, Closes, IsFile, IsNewFile, Passed, Passes};
ghost use Rattle.mvd_runs.specs.Files.{IsValidTurn, Stops, WorksBy, setup_of};
ghost use Rattle.mvd_runs.specs.Sessions.{SideTakes, push_turn};

use mvd_replica::Replica;
use sqlite::{Alter, FileStore, Files};
use sqlite_disk::Disk;

/// Turns of a site, of a connection, of rounds of many or of requests at once, are events of the store, call by call.
pub fn turns_are_events<S: Alter>()
    ensures site { (a : Knows) (i : ℕ) (calls : List (List Turn)) (old new : SiteValue)
        → AreTurns (all_turns calls) old new → IsSiteKnown a i old → AreEvents a i calls new }
    ensures replica { (turns : List Turn) (old new : SiteValue) (before after : Held S)
        → TakesTurns turns (stored_by S.Store old before) (stored_by S.Store new after) → AreTurns turns old new }
    // What `Replica::answer` promises is one turn, and what `answer_all` promises one for each request.
    ensures answer { (turns : List Turn) (old new : Replica S S.Store) → SharesCommit turns old new
        → TakesTurns turns (stored_of old) (stored_of new) }
    ensures answers { (requests : List Request) (replies : List Reply) (old new : Replica S S.Store)
        → AnswersInCommits requests replies old new → AnswersAll requests replies (stored_of old) (stored_of new) }
{}

/// A run of a program on a file, whether it closed the file or was stopped, is a behaviour of the store: the file was
/// opened, and the turns are events. What is known goes on through the file, so runs of any programs follow one
/// another.
pub fn a_run_is_events<S: Alter>()
    ensures closed { (i : ℕ) (calls : List (List Turn)) (run : Run (Held S)) → Begins (state S.Store) calls run
        → run.config.site ≡ i → Closes (state S.Store) calls run
        → Passes i (setup_of run.config) calls run.image run.left }
    ensures stopped { (i : ℕ) (calls : List (List Turn)) (run : Run (Held S)) → Begins (state S.Store) calls run
        → run.config.site ≡ i → Stops (state S.Store) calls run
        → Passes i (setup_of run.config) calls run.image run.left }
{}

/// What is done to a replica is calls: nothing; one thing after the other; turns that a call tells; and a request that
/// is asked.
pub fn work_is_turns<S: Alter>()
    ensures none { (replica : Replica S S.Store) → WorksBy [] (stored_of replica) (stored_of replica) }
    ensures on { (first second : List (List Turn)) (old mid new : Replica S S.Store)
        → WorksBy first (stored_of old) (stored_of mid)
        → WorksBy second (stored_of mid) (stored_of new) → WorksBy (first ++ second) (stored_of old) (stored_of new) }
    ensures turns { (turns : List Turn) (old new : Replica S S.Store) → AllByRecursion IsValidTurn turns
        → TakesTurns turns (stored_of old) (stored_of new) → WorksBy (turns ∷ []) (stored_of old) (stored_of new) }
    ensures asked { (old new : Replica S S.Store) (request : Request) (reply : Reply) → IsValidRequest request
        → HasWrites (site_of old) → ReplicaAnswers old new request reply
        → WorksBy ((record { asked = Ok request; reply = reply } ∷ []) ∷ []) (stored_of old) (stored_of new) }
{}

/// What the calls of a command promise of its file is such a run: it was opened as a site, work on the site was turns,
/// and the file was closed. So is what a later stop leaves of the closed file, and what a stop leaves of the open one.
pub fn a_command_is_a_run<D: Disk + Drop>(
    old: &Replica<FileStore<D>>,
    new: &Replica<FileStore<D>>,
    files: &Files<D>,
)
    ensures closed { (i : ℕ) (image : Image) (config : ConfigValue) (calls : List (List Turn)) → config.site ≡ i
        → OpensAsSite image config (Ok old.now) → WorksBy calls (stored_of old.now) (stored_of new.now)
        → AreClean D.Disk files.now.log files.now.db → ClosesInto new.now files.now
        → Passes i (setup_of config) calls image (image_of D.Disk files.now) }
    ensures left { (i : ℕ) (image after : Image) (config : ConfigValue) (calls : List (List Turn)) → config.site ≡ i
        → OpensAsSite image config (Ok old.now) → WorksBy calls (stored_of old.now) (stored_of new.now)
        → AreClean D.Disk files.now.log files.now.db → ClosesInto new.now files.now
        → outcomes D.Disk files.now.log files.now.db after → Passes i (setup_of config) calls image after }
    ensures stopped { (i : ℕ) (image after : Image) (config : ConfigValue) (calls : List (List Turn)) (trees : Trees)
        → config.site ≡ i → OpensAsSite image config (Ok old.now)
        → WorksBy calls (stored_of old.now) (stored_of new.now) → HasCleanDisk (store_of new.now)
        → (store_of new.now).may_leave trees → ∥ HoldsDatabase after trees ∥₁
        → Passes i (setup_of config) calls image after }
{}

/// The first run of all is on a new file: one in which no database is found, or an empty one.
pub fn a_first_run_is_events()
    ensures { (a : Knows) (i : ℕ) (image : Image) → ((was : Database) → IsFoundAt image was → IsEmpty was.trees)
        → (a i).known ≡ [] → IsNewFile a i image }
{}

/// Runs of any programs on one file, one after the other, each closed or stopped, keep the promise of the store; and
/// the file holds what its site then knows.
pub fn a_file_keeps_the_promise()
    ensures kept { (i : ℕ) (image : Image) (a : Knows) (runs : List Passed) → IsFile a i image → AreChained i image runs
        → (it : CarriedRuns a i image runs) × Promise it.events it.end }
    ensures begun { (i : ℕ) (image : Image) (a : Knows) (run : Passed) (runs : List Passed) → IsNewFile a i image
        → AreChained i image (run ∷ runs) → (it : CarriedRuns a i image (run ∷ runs)) × Promise it.events it.end }
{}

/// What a whole site tells to a question, by whatever call, is an event that changes nothing. So what a session hands
/// from one site to the other was told before it was pushed.
pub fn a_told_state_is_an_event()
    ensures state { (a : Knows) (i : ℕ) (site : SiteValue) (key : Key) → IsSiteKnown a i site → site.broken ≡ false
        → Next a (Told i (Get key) (Shown (state_at site.states key))) a }
    ensures question { (a : Knows) (i : ℕ) (site : SiteValue) (request : Request) (told : Reply) → IsSiteKnown a i site
        → site.broken ≡ false → is_question request ≡ true → TellsAnswer site request told
        → Next a (Told i request told) a }
{}

/// One push by reference is a turn, with what it came to as its reply.
pub fn a_push_is_a_turn<S: Alter>()
    ensures { (old new : Replica S S.Store) (key : Key) (pushed : State) (result : Result (Unit {0}) Refusal)
        → PushesState old key pushed result new
        → TakesTurns (push_turn key pushed (push_reply result) ∷ []) (stored_of old) (stored_of new) }
{}

/// What calls of a session do to a replica is turns, of which each pushes a state: nothing, more of it, a push, and a
/// window of them. What is said of such calls in other words follows, save how the states came.
pub fn a_session_is_turns<S: Alter>()
    ensures none { (site : SiteValue) (conn : Held S)
        → SideTakes (stored_by S.Store site conn) (stored_by S.Store site conn) }
    ensures on { (old mid new : SiteValue) (before between after : Held S)
        → SideTakes (stored_by S.Store old before) (stored_by S.Store mid between)
        → SideTakes (stored_by S.Store mid between) (stored_by S.Store new after)
        → SideTakes (stored_by S.Store old before) (stored_by S.Store new after) }
    ensures push { (old new : Replica S S.Store) (key : Key) (pushed : State) (result : Result (Unit {0}) Refusal)
        → IsValid pushed → PushesState old key pushed result new → SideTakes (stored_of old) (stored_of new) }
    ensures window { (old new : Replica S S.Store) (pairs : List (Key × State)) (replies : List Reply)
        → Each (λ pair. IsValid pair.1) pairs → AnswersAll (map push_of pairs) replies (stored_of old) (stored_of new)
        → SideTakes (stored_of old) (stored_of new) }
    ensures follows { (old new : Replica S S.Store) → SideTakes (stored_of old) (stored_of new)
        → ComesByPushes (λ _ _. Unit {0}) (site_of old).states (site_of new).states
        → SideFollows (stored_of old) (stored_of new) }
{}
