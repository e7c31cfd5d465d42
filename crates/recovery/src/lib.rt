// What holds of reading a journal back, proved: the statements of rules/specs/Brokers. The proofs stand in proofs/.
#![tactic(auto)]
