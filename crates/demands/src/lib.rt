#![tactic(auto)]

// Theorems on what a message gives; no code.
