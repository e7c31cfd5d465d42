// What holds of the rules, proved: demand 3 and the statements of rules/specs/Theorems. The proofs stand in proofs/.
#![tactic(auto)]
