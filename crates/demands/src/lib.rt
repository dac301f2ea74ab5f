// The three demands on one page, over the bytes that a host sees. No code.
#![tactic(auto)]
