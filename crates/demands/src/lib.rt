// The demands, the idle programs and the starred examples: definitions and theorems, no functions.
#![tactic(auto)]
