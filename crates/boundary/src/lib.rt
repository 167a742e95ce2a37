#![tactic(auto)]

// What each call at the boundary to the host gives, on words. Definitions and laws; no code.
