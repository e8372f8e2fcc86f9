// Small whole jobs and matches computed over the definitions; they stand in specs/.

#![tactic(auto)]
