// 01's starred cases, proved together: rows of one list under a single claim, and no code.
#![tactic(auto)]
