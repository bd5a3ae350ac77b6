// The settled examples of document 01 on the bytes of a book: those of a seventeenth slot, and the listing's book. Definitions and theorems
// alone.
#![tactic(auto)]
