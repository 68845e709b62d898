// RGB to YCbCr over bytes by the weights, and what there and back moves: definitions and theorems, and no code.
#![tactic(auto)]
