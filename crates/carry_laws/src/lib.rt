// Every plan suits the code that carries it out: its words, its places and texts, its numbers and its order. Laws of the plans. No code.
#![tactic(auto)]
