// Theorems on lattice points and listed sites; they stand in specs/.

#![tactic(auto)]
