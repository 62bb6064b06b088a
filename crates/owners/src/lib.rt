// The owner table that the check fills: its definitions (specs/OwnerTable) and its laws (proofs). There is no code here.
#![tactic(auto)]
