// Sentences of document 01 on jobs, sleepers and listeners, word for word, of the server's definitions. No code.
#![tactic(auto)]
