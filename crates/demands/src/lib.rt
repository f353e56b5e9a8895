// Statements only: demands 2 and 3, clause by clause, about the definitions that the C functions' contracts cite.
#![tactic(auto)]
