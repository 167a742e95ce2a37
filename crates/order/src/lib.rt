#![tactic(auto)]

// The order, sentence by sentence: statements, each proved by the theorem that it cites; no code.
