// A plan does what the server's definitions decide; and what an event leaves is what its step and its ending leave. Laws of tables. No
// code.
#![tactic(auto)]
