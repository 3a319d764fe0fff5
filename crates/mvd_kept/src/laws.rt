//! What holds of a site's states and of its answers, each law as the contract of an empty function.
ghost use Rattle.std.specs.Prelude.{◌≡◌, ◌≢◌, ◌≤◌, ◌↔◌, ℕ, List, ◌++◌, length, true, false};
ghost use Rattle.std.specs.FinMap.{insert};
ghost use Rattle.mvd_dots.specs.declared.refusals.Refusal.{Refusal};
ghost use Rattle.mvd_dots.specs.declared.refusals.Refusal.TheVariants.{Broken, DotClash};
ghost use Rattle.mvd_keys.specs.Writes.{Agree, Key, SameWrites, Stands, Write, state};
ghost use Rattle.mvd_rows.specs.Visible.{visible, visible_in};
ghost use Rattle.mvd_tree.specs.Hashed.{HashesTellApart, HaveOneText, SameUnder};
ghost use Rattle.mvd_tree.specs.HashTree.{node_digest};
ghost use Rattle.mvd_wire.specs.Replies.{CanBeSent};
ghost use Rattle.mvd_wire.specs.declared.request.Request.{Request};
ghost use Rattle.mvd_wire.specs.declared.reply.Reply.{Reply};
ghost use Rattle.mvd_wire.specs.declared.reply.Reply.TheVariants.{Refused};
ghost use Rattle.mvd_kept.specs.Answer.{answer, digests, is_question, spelled, states_of};
ghost use Rattle.mvd_kept.specs.AtOnce.{AnswersRequest};
ghost use Rattle.mvd_kept.specs.Change.{ChangeValue};
ghost use Rattle.mvd_kept.specs.Config.{ConfigValue};
ghost use Rattle.mvd_kept.specs.FromStates.{IsClashingPush, after_from, answer_from};
ghost use Rattle.mvd_kept.specs.Held.{AreHeld, States, state_at};
ghost use Rattle.mvd_kept.specs.Known.{Adds};
ghost use Rattle.mvd_kept.specs.Prepared.{IsChangeNow};
ghost use Rattle.mvd_kept.specs.Sites.{AnswersOne, SiteValue, has_no_room};

/// Where states stand for a set of writes, the answer from the states is that from the writes, and the states
/// afterwards stand for the writes with what the request added.
pub fn answers_from_states()
    // The states that follow from writes are those of the multi-value register, and what indexes and views show is what
    // the writes show.
    ensures state { (known : List Write) (key : Key) → state_at (states_of known) key ≡ state key known }
    ensures visible { (known : List Write) → visible_in (states_of known) ≡ visible known }
    ensures answer { (config : ConfigValue) (states : States) (known : List Write) (request : Request) →
        Stands states known → answer_from config states request ≡ answer config known request }
    ensures after { (config : ConfigValue) (states : States) (known : List Write) (request : Request)
        (added : List Write) → Stands states known → Adds request (answer config known request) added →
        Stands (after_from config states request) (known ++ added) }
    // A clash is the answer to a push alone, of a state that clashes with the key's.
    ensures clash { (config : ConfigValue) (states : States) (request : Request) →
        answer_from config states request ≡ Refused DotClash → IsClashingPush states request }
    // Two sets of writes with the same states have the same answers.
    ensures alike { (config : ConfigValue) (states : States) (V W : List Write) (request : Request) →
        Stands states V → Stands states W → answer config V request ≡ answer config W request }
{}

/// What a site does with one request, as a reader of its states may say it, and one of the writes that it knows.
pub fn answers_follow()
    // From any writes that its states stood for, the reply is one that it may give, and its states stand for what it
    // added too.
    ensures known { (old new : SiteValue) (request : Request) (reply : Reply) →
        AnswersRequest old new request reply → AnswersOne old new request reply }
    ensures config { (old new : SiteValue) (request : Request) (reply : Reply) →
        AnswersRequest old new request reply → new.config ≡ old.config }
    // It says that it is broken just where it is from then on.
    ensures told { (old new : SiteValue) (request : Request) (reply : Reply) →
        AnswersRequest old new request reply → (reply ≡ Refused Broken) ↔ (new.broken ≡ true) }
    // What is refused changes nothing, unless it breaks.
    ensures unchanged { (old new : SiteValue) (request : Request) (reply : Reply) (refusal : Refusal) →
        AnswersRequest old new request reply → reply ≡ Refused refusal → refusal ≢ Broken → new ≡ old }
    // There are writes that the request adds.
    ensures adds { (old new : SiteValue) (request : Request) (reply : Reply) →
        AnswersRequest old new request reply → (added : List Write) × Adds request reply added }
    // From states in form no reply is too long for its frame.
    ensures fits { (old new : SiteValue) (request : Request) (reply : Reply) → AreHeld old.states →
        AnswersRequest old new request reply → CanBeSent reply }
{}

/// Sites that know the same writes give equal answers: to a question, of the configuration only the definitions of
/// indexes and views count, whatever a site's number is and however many keys it may hold.
pub fn questions_are_answered_alike()
    ensures writes { (a b : ConfigValue) (known : List Write) (request : Request) → a.defs ≡ b.defs →
        is_question request ≡ true → answer a known request ≡ answer b known request }
    ensures states { (a b : ConfigValue) (states : States) (request : Request) → a.defs ≡ b.defs →
        is_question request ≡ true → answer_from a states request ≡ answer_from b states request }
    // Two maps of states that stand for the same writes.
    ensures standing { (a b : ConfigValue) (m n : States) (known : List Write) (request : Request) →
        a.defs ≡ b.defs → is_question request ≡ true → Stands m known → Stands n known →
        answer_from a m request ≡ answer_from b n request }
    // Two sets of writes with the same states.
    ensures known { (a b : ConfigValue) (states : States) (V W : List Write) (request : Request) →
        a.defs ≡ b.defs → is_question request ≡ true → Stands states V → Stands states W →
        answer a V request ≡ answer b W request }
    // A question changes nothing.
    ensures still { (config : ConfigValue) (states : States) (request : Request) → is_question request ≡ true →
        after_from config states request ≡ states }
{}

/// An answer is a function of the set of writes: where they agree, order and repeats do not matter, to a question or
/// to a change.
pub fn answers_are_of_the_set()
    ensures answers { (config : ConfigValue) (V W : List Write) (request : Request)
        → SameWrites V W → Agree V → answer config V request ≡ answer config W request }
    // Each list of writes has a map of states that stands for it.
    ensures states { (W : List Write) → Stands (states_of W) W }
{}

/// Changes of two keys that were prepared on one site may both be installed, one after the other, where there is
/// still room: what one installs does not make the other stale.
pub fn changes_stand_side_by_side()
    ensures { (site : SiteValue) (first second : ChangeValue)
        → IsChangeNow site first → IsChangeNow site second → first.key ≢ second.key
        → has_no_room site.config (insert site.states first.key first.state) second.key ≡ false
        → IsChangeNow (record {
          config = site.config;
          states = insert site.states first.key first.state;
          broken = false;
        }) second }
{}

/// A map of states that a site may hold stands for a set of writes.
pub fn held_states_stand()
    ensures { (states : States) → AreHeld states → (known : List Write) × Stands states known }
{}

/// Of keys and states that a site may hold, two are spelled alike only where they are one key in one state.
pub fn each_has_one_text()
    ensures { (a b : States) → AreHeld a → AreHeld b → HaveOneText spelled a b }
{}

/// Where SHA-256 tells the texts that are hashed for two sites apart, nodes of one path with one digest hold the same
/// keys in the same states.
pub fn equal_nodes_hold_equal_states()
    ensures { (a b : States) → AreHeld a → AreHeld b → HashesTellApart spelled a b → (path : List ℕ) →
        length path ≤ 3 → node_digest (digests a) path ≡ node_digest (digests b) path → SameUnder path a b }
{}
