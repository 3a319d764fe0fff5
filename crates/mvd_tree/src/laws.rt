//! What holds of the digests of nodes, each law as the contract of an empty function.
ghost use Rattle.std.specs.Prelude.{◌≡◌, ℕ, ◌+◌, List, [], ◌∷◌, Option};
ghost use Rattle.mvd_tree.specs.Counted.{keys_beside};
ghost use Rattle.mvd_tree.specs.HashTree.{KeyDigests};
ghost use Rattle.mvd_tree.specs.Hashed.{ChangeLeavesOtherNodes, EqualNodesHoldEqualKeys, EqualNodesHoldEqualStates};
ghost use Rattle.mvd_tree.specs.Hashed.{EqualRootsAreOfEqualMaps, NodesDependOnKeysUnder};
ghost use Rattle.mvd_tree.specs.Touched.{count_touched, inner_touched, keys_touched};

/// A node's digest depends on the keys under it alone.
pub fn nodes_depend_on_keys_under()
    ensures { NodesDependOnKeysUnder }
{}

/// A change of one key leaves the digest of each node whose path does not begin the key's path.
pub fn change_leaves_other_nodes()
    ensures { ChangeLeavesOtherNodes }
{}

/// Where SHA-256 tells the texts of two trees apart, nodes of one path with one digest hold the
/// same keys with the same digests.
pub fn equal_nodes_hold_equal_keys()
    ensures { EqualNodesHoldEqualKeys }
{}

/// Where it tells the spelled keys and states apart, too, those nodes hold the same keys in the
/// same states.
pub fn equal_nodes_hold_equal_states<S>()
    ensures { (spelled : List ℕ → S → List ℕ) → EqualNodesHoldEqualStates spelled }
{}

/// And two maps whose roots have one digest are one map.
pub fn equal_roots_are_of_equal_maps<S>()
    ensures { (spelled : List ℕ → S → List ℕ) → EqualRootsAreOfEqualMaps spelled }
{}

/// A change of one key takes at most five computations: of its path, its bucket, and the three nodes above. These read the
/// digests of the keys with its path.
pub fn one_change_is_counted()
    ensures keys { (held : KeyDigests) (key : List ℕ) (digest : Option (List ℕ)) →
        keys_touched held ((key, digest) ∷ []) ≡ keys_beside held key }
    ensures nodes { (key : List ℕ) (digest : Option (List ℕ)) →
        count_touched 0 ((key, digest) ∷ []) + inner_touched ((key, digest) ∷ []) ≡ 4 }
{}
