// What opaque bytes can change in what `show` prints of a capture: nothing. Laws of its definitions. No code.
#![tactic(auto)]
