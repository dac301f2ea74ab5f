// The table and its bytes: theorems about the layout, and laws of what is written when one job, function, connection or the last serial
// changes. No code.
#![tactic(auto)]
