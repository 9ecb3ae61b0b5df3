// No code: the definitions of specs/ and the laws of proofs/ are what the crates above cite.
#![tactic(auto)]
