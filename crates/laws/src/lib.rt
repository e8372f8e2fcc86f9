// Laws about the definitions that several crates cite; they stand in specs/.

#![tactic(auto)]
