#![tactic(auto)]

// Theorems over the definitions; no code.
