// Document 01's edges and its replay, computed from the definitions. No code.
#![tactic(auto)]
