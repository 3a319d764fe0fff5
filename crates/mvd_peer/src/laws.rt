//! Laws of sides to which others write meanwhile, each as the contract of an empty function.
ghost use Rattle.std.specs.Prelude.{◌≡◌, Contains, List, false};
ghost use Rattle.mvd_keys.specs.Order.{Includes};
ghost use Rattle.mvd_keys.specs.State.{IsValid, State, clashes};
ghost use Rattle.mvd_keys.specs.Writes.{Key};
ghost use Rattle.mvd_peer.specs.Live.{AreValid, Grows, HaveBoth, Rises};
ghost use Rattle.mvd_peer.specs.PushedStates.{pushed};
ghost use Rattle.mvd_site.specs.Held.{AreHeld, States, state_at};

/// Why a session beside other writers leaves both sides with what either had as it began. `a` and `b` are what the two
/// sides held then, `a'` and `b'` what they hold as it ends, and `s` and `t` what they held at some moments between.
pub fn what_is_met_is_had()
    // At a key that was found equal at two moments, which need not be the same.
    ensures met { (a b s t a' b' : States) (key : Key) → AreValid a → AreValid b → AreValid s → AreValid t →
        AreValid a' → AreValid b' → Grows a s → Grows s a' → Grows b t → Grows t b' →
        state_at s key ≡ state_at t key → HaveBoth a b a' b' key }
    // What was pushed at some moment is had.
    ensures pushed { (s a' : States) (key : Key) (state : State) → AreValid s → AreValid a' → IsValid state →
        clashes (state_at s key) state ≡ false → Grows (pushed s key state) a' → Includes (state_at a' key) state }
    // What the other side gave, and was pushed, brings all that it had as the session began.
    ensures given { (b t a' : States) (key : Key) → AreValid b → AreValid t → AreValid a' → Grows b t →
        Includes (state_at a' key) (state_at t key) → Includes (state_at a' key) (state_at b key) }
    // A state need not be pushed where the other side's includes it.
    ensures spared { (s t b' : States) (key : Key) → AreValid s → AreValid t → AreValid b' →
        Includes (state_at t key) (state_at s key) → Grows t b' → Includes (state_at b' key) (state_at s key) }
{}

/// What a side holds grows over any moments, to each of them and from it, and by a push. What a side in form holds is
/// valid.
pub fn moments_grow()
    ensures whole { (old new : States) (moments : List States) → AreValid old → AreValid new →
        Rises old moments new → Grows old new }
    ensures each { (old new : States) (moments : List States) → AreValid old → AreValid new →
        Rises old moments new → (held : States) → Contains moments held →
        AreValid held × Grows old held × Grows held new }
    ensures pushed { (held : States) (key : Key) (state : State) → AreValid held → IsValid state →
        AreValid (pushed held key state) × Grows held (pushed held key state) }
    ensures form { (held : States) → AreHeld held → AreValid held }
{}
