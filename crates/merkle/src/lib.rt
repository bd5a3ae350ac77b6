// The theory of chunks over any prefix: the tree, the address, segments and segment proofs. Definitions and theorems alone.
#![tactic(auto)]
