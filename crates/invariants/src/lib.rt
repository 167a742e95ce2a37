#![tactic(auto)]

// What the code may rely on: sound tables stay sound, the reply fits its room, a chain that was judged is read again. Theorems; no code.
