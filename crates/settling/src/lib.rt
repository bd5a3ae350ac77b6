// The theory of the book over abstract records: rank, slots, depth, offers, and that their order does not matter. Definitions and theorems alone.
#![tactic(auto)]
