// Statements only: change request 9, the order of the ISO texts and the order of their instants.
#![tactic(auto)]
