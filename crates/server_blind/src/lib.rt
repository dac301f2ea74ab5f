// What opaque bytes can change: laws of the server's definitions, and of histories of calls on lent bytes. No code.
#![tactic(auto)]
