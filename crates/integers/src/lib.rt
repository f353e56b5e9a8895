// Definitions and laws only: the quotient rounded down and its remainder, linear arithmetic over ℤ, the machine's signed integers, and rules by a computed test.
#![tactic(auto)]
