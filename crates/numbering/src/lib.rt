// States numbered as they are found, whatever the states and their moves are: definitions and theorems, no functions.
#![tactic(auto)]
