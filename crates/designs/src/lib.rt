// The worked designs of document 01, computed over the definitions: see specs/.

#![tactic(auto)]
