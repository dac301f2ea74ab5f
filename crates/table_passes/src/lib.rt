// Laws of a pass over places: a loop that keeps a flag, that compares each two places, or that gathers a set. No code.
#![tactic(auto)]
