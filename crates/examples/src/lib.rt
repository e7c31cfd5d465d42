// The rules computed on examples: 01's worked example and cases at its limits. They stand in specs/.
#![tactic(auto)]
