// A plan concluded on lent bytes is what the call's definition performs: laws of plans and calls. No code.
#![tactic(auto)]
