// Specifications only: document 01's table "Marked to be proved", over the definitions that the C functions' contracts cite.
#![tactic(auto)]
