// Theorems on the permutation that rules make of a seed, and on the call that makes it; they stand in specs/.

#![tactic(auto)]
