// Theorems on the promise of the whole call; they stand in specs/.

#![tactic(auto)]
