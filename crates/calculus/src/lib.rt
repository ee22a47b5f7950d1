#![tactic(auto)]

// No function: this crate holds the definitions in specs/ and the theorems in proofs/.
