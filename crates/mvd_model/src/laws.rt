//! What holds of every behaviour of the store, each law as the contract of an empty function.
ghost use Rattle.std.specs.Prelude.{ℕ, List, []};
ghost use Rattle.mvd_wire.specs.declared.request.Request.{Request};
ghost use Rattle.mvd_wire.specs.declared.reply.Reply.{Reply};
ghost use Rattle.mvd_kept.specs.Known.{IsValidRequest};
ghost use Rattle.mvd_model.specs.TheStore.{Event, Happen, Knows, Next, Promise, Setup, Told};
ghost use Rattle.mvd_model.specs.Apart.{HappenAt, events_at};
ghost use Rattle.mvd_model.specs.Handed.{AllBring, AreSound, Handed, PushTold, knows, nothing_known};

/// Whatever the sites knew at first, whatever was asked of whichever of them, in whatever order, and however often each
/// was opened again.
pub fn the_store()
    ensures { (start end : Knows) (events : List Event) → Happen start events end → Promise events end }
{}

/// Where each state that is pushed was told before as that of its key, by any site, nobody makes up what he pushes: the
/// same events, with the same states at each site at the end, are such a behaviour.
pub fn told_states_are_handed()
    ensures { (setups : ℕ → Setup) (events : List Event) (end : Knows) → Happen (nothing_known setups) events end
        → PushTold [] events → Handed (nothing_known setups) events end }
{}

/// Where nobody makes up what he pushes, no two documents have one dot. So what sites know agrees, as `Promise.alike`
/// asks.
pub fn nothing_is_made_up()
    ensures { (setups : ℕ → Setup) (events : List Event) (end : Knows)
        → (happen : Happen (nothing_known setups) events end) → AllBring (nothing_known setups) events end happen
        → AreSound (knows end) }
{}

/// What happens at each site alone is a behaviour of the store, in whatever order all of it comes, and each behaviour
/// is made so. So what one program says of its file, and another of another file, is one behaviour, also where they ran
/// at once.
pub fn sites_are_apart()
    ensures mixed { (a end : Knows) (events : List Event) → ((i : ℕ) → HappenAt (a i) (events_at i events) (end i))
        → Happen a events end }
    ensures alone { (a end : Knows) (events : List Event) → Happen a events end
        → (i : ℕ) → HappenAt (a i) (events_at i events) (end i) }
{}

/// Each site tells something to each request: its answer, or 22 where it is broken. So there are behaviours of any
/// requests, as long as one likes. A push has to be of the state of some writes.
pub fn a_site_always_tells()
    ensures { (a : Knows) (i : ℕ) (request : Request) → IsValidRequest request
        → (reply : Reply) × (b : Knows) × Next a (Told i request reply) b }
{}
