// The whole number nearest a fraction, and the byte that it is held to: definitions and theorems, and no code.
#![tactic(auto)]
