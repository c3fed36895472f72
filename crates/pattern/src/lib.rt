// The textbook of patterns: definitions and theorems, no functions.
#![tactic(auto)]
