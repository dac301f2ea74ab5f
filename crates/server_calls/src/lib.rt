// Calls on lent bytes: what each leaves, and that histories of calls follow the server. Theorems, no code.
#![tactic(auto)]
