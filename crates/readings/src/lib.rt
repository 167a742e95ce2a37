#![tactic(auto)]

// Theorems on the grammar and the reader; no code.
