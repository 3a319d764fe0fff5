//! What holds of worlds whatever steps are taken, each law as the contract of an empty function.
ghost use Rattle.std.specs.Prelude.{◌≡◌, ℕ, List, Some, true};
ghost use Rattle.mvd_keys.specs.Writes.{SameWrites};
ghost use Rattle.mvd_wire.specs.declared.request.Request.{Request};
ghost use Rattle.mvd_peer.specs.PushedStates.{Each};
ghost use Rattle.mvd_site.specs.Answer.{answer, is_question, spelled, states_of};
ghost use Rattle.mvd_site.specs.Config.{ConfigValue};
ghost use Rattle.mvd_sync.specs.declared.report.Report.{Report};
ghost use Rattle.mvd_tree.specs.Hashed.{HashesTellApart};
ghost use Rattle.mvd_world.specs.declared.steps.Outcome.TheVariants.{Met};
ghost use Rattle.mvd_world.specs.declared.steps.Step.TheVariants.{Session};
ghost use Rattle.mvd_world.specs.declared.steps.Step.{Step};
ghost use Rattle.mvd_world.specs.declared.steps.Outcome.{Outcome};
ghost use Rattle.mvd_world.specs.Machine.{WorldEvent, StepsHappen, HaveOwnDots, IsNoClash, IsConsistent, Knowledge, MayHappen};
ghost use Rattle.mvd_world.specs.Machine.{MayStep, RunsSteps, Setting, Stepped, is_site, world_events, nothing_yet};
ghost use Rattle.mvd_world.specs.Agreeing.{HasCome, RanToItsEnd, WithoutWrites};
ghost use Rattle.mvd_world.specs.OpenWorlds.{AreCutInto, IsNoWriting, RunsActs, Scene};
ghost use Rattle.mvd_world.specs.declared.acts.Act.{Act};
ghost use Rattle.mvd_world.specs.declared.acts.Came.{Came};

/// Whatever is lost, repeated or reordered, whatever contexts the authors hand in, and whatever keys a session joins.
pub fn every_schedule()
    // One put for each dot, and what is known was made.
    ensures sound { (setting : Setting) (steps : List Step) (outcomes : List Outcome) (end : Knowledge)
        → RunsSteps setting nothing_yet steps outcomes end → IsConsistent end }
    // No step is refused for a clash.
    ensures apart { (setting : Setting) (before after : Knowledge) (step : Step) (outcome : Outcome)
        → IsConsistent before → MayStep setting before step outcome after → IsNoClash outcome }
{}

/// The same of sites that break and are opened again, at any places and as often as may be, with or without the changes
/// that were told that the site is broken.
pub fn every_schedule_with_sites_opened_again()
    ensures sound { (setting : Setting) (events : List WorldEvent) (end : Knowledge)
        → StepsHappen setting nothing_yet events end → IsConsistent end }
    ensures apart { (setting : Setting) (before after : Knowledge) (step : Step) (outcome : Outcome)
        → IsConsistent before → MayHappen setting before (Stepped step outcome) after → IsNoClash outcome }
    // Steps where no site is opened again are such events.
    ensures steps { (setting : Setting) (before end : Knowledge) (steps : List Step) (outcomes : List Outcome)
        → RunsSteps setting before steps outcomes end → StepsHappen setting before (world_events steps outcomes) end }
{}

/// Two puts of one key, at different steps, at one site or at two, are told different dots: also where sites broke
/// between them, and were opened again.
pub fn each_put_has_its_own_dot()
    ensures { (setting : Setting) (events : List WorldEvent) (end : Knowledge)
        → StepsHappen setting nothing_yet events end → HaveOwnDots events }
{}

/// Sites with equal definitions that know the same writes give equal answers to each question, whatever their numbers
/// and however many keys each may hold.
pub fn the_same_writes_are_answered_alike()
    ensures { (setting : Setting) (world : Knowledge) (i j : ℕ) (a b : ConfigValue) (request : Request)
        → IsConsistent world → setting.configs i ≡ Some a → setting.configs j ≡ Some b → a.defs ≡ b.defs
        → SameWrites (world.known i) (world.known j) → is_question request ≡ true
        → answer a (world.known i) request ≡ answer b (world.known j) request }
{}

/// Sessions that are cut into windows run into each other and among writers: whatever acts there are, they are steps. A
/// step is itself, a session that begins is none, and each window is a list of questions, of states that are sent and
/// of messages that come. So each law of schedules holds of them.
pub fn sessions_in_windows_are_steps()
    ensures cut { (setting : Setting) (before end : Scene) (acts : List Act) (cames : List Came)
        → RunsActs setting before acts cames end → (steps : List Step) × (outcomes : List Outcome)
        × AreCutInto acts cames steps outcomes × RunsSteps setting before.knowledge steps outcomes end.knowledge }
    // Where no act writes, no step does.
    ensures quiet { (setting : Setting) (before end : Scene) (acts : List Act) (cames : List Came)
        → RunsActs setting before acts cames end → Each IsNoWriting acts
        → WithoutWrites setting before.knowledge end.knowledge }
{}

/// Where what each site held after the last write has come to each other, by sessions that ran to their end, all sites
/// hold the same states: those of all writes that were made.
pub fn enough_sessions_agree()
    ensures { (setting : Setting) (past : List Step) (told : List Outcome) (last end : Knowledge)
        → RunsSteps setting nothing_yet past told last → WithoutWrites setting last end → (site : ℕ)
        → ((from : ℕ) → is_site setting from ≡ true → HasCome setting last from end site)
        → states_of (end.known site) ≡ states_of end.made }
{}

/// A session that nothing disturbs, that told no fault and left no key, ran to its end, where SHA-256 tells the texts
/// of both sites apart.
pub fn a_session_that_leaves_no_key_ran_to_its_end()
    ensures { (setting : Setting) (before after : Knowledge) (local peer : ℕ) (report : Report)
        → MayStep setting before (Session local peer) (Met report) after → report.refused ≡ 0
        → HashesTellApart spelled (states_of (before.known local)) (states_of (before.known peer))
        → RanToItsEnd before after local peer }
{}
