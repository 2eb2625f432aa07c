//! The functions of XMSS and XMSS^MT with SHA-256, n = 32 and w = 16 (RFC 8391): chains, L-trees,
//! trees and their addresses, as functions on lists of octets.
//!
//! Definitions alone, in `specs/`, with lemmas on how each grows in `proofs/`. The verifiers that
//! stand on them share no code, so that a mistake in one is no mistake in the other.
#![tactic(auto)]

ghost use Rattle.std.specs.Prelude.{◌≡◌, ℕ, List, length};
ghost use Rattle.xmss_definitions.specs.Address.{Tree};
ghost use Rattle.xmss_definitions.specs.Nodes.{lifted};

/// The law that the L-tree of 67 nodes is one node after seven heights.
pub fn l_tree_ends_in_one()
    ensures { (tree : Tree) → (leaf : ℕ) → (nodes : List (List ℕ)) → length nodes ≡ 67 → length (lifted tree leaf nodes 7) ≡ 1 }
{}
