// What joined lists do when they are run and when they are merged: theorems on joining, running and merging, and no code.
#![tactic(auto)]
