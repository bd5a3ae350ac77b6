// The settled examples that document 01 marks to be proved, as one table under one statement. Definitions and theorems alone.
#![tactic(auto)]
