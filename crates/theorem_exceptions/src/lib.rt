// Which plans pass the width check: theorems on the planner, the merging and the check, and no code.
#![tactic(auto)]
