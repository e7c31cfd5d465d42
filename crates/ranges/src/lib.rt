// Laws of the range assignor's definitions (rules/specs/Assignor): places sorted by their IDs, and partitions shared out in runs. The proofs stand in proofs/.
#![tactic(auto)]
