// The marked cases and the worked examples stand in specs/; there is no code here.

#![tactic(auto)]
