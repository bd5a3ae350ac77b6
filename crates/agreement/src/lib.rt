// Two books from the same offers, and the hashes drawn from them: that they agree. Definitions and theorems alone.
#![tactic(auto)]
