// No code: the definitions of specs/ are what contracts cite, the theorems of proofs/ what proofs cite.
#![tactic(auto)]
