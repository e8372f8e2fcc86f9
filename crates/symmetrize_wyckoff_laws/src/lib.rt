// Theorems on the letters of orbits; they stand in specs/.

#![tactic(auto)]
