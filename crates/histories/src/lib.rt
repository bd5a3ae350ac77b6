// Histories on bytes: fresh books that hear offers, and what an offer to any bytes answers and leaves. Definitions and theorems alone.
#![tactic(auto)]
