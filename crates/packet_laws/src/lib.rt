// Theorems about packets: round trips, and what reading depends on. No code.
#![tactic(auto)]
