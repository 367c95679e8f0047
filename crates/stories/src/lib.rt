// No code: specs/ holds what is computed from the definitions of all crates: the starred examples of the scope document, one table with one
// claim, and histories of grids whose every answer the oracle gave.
#![tactic(auto)]
