// What is written is read again, and what is read is written again: theorems on the reader and the writer of plan blocks, and no code.
#![tactic(auto)]
