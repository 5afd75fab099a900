// What moving and turning an outline leaves as it was: no code, and theorems over what the other crates answer.
#![tactic(auto)]
