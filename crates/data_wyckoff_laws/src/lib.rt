// Theorems on the reading of coordinates; they stand in specs/.

#![tactic(auto)]
