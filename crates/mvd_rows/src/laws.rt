//! What is visible depends on the states of keys alone.
ghost use Rattle.std.specs.Prelude.{◌≡◌, List};
ghost use Rattle.std.specs.FinMap.{FinMap};
ghost use Rattle.mvd_keys.specs.Key.{key_cmp};
ghost use Rattle.mvd_keys.specs.State.{State};
ghost use Rattle.mvd_keys.specs.Writes.{Stands, Write};
ghost use Rattle.mvd_rows.specs.Visible.{visible, visible_in};

/// A map of key states that stands for a set of writes makes visible just what the writes do.
#[tactic(auto, using(crate::proofs::ByKey::visible_of_writes))]
pub fn same_as_of_writes()
    ensures { (states : FinMap key_cmp State) (writes : List Write) → Stands states writes →
        visible_in states ≡ visible writes }
{}
