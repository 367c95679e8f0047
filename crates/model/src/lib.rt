// No code: specs/ holds the grids as the Rust has them, axes grids and bins grids nested in one another, and what every call makes
// of them. The library's contracts, the theorems on histories and the oracle are held against these definitions.
#![tactic(auto)]
