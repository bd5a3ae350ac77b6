// What the Keccak team publishes of the hash, proved of its definition. Theorems alone.
#![tactic(auto)]
