// Document 01 as definitions (specs/) and the theorems over them (proofs/). There is no code here.
#![tactic(auto)]
