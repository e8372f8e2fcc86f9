// Theorems on the diagonalising run; they stand in specs/.

#![tactic(auto)]
