// Theorems on the bytes of a job; they stand in specs/.

#![tactic(auto)]
