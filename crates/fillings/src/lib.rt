// Definitions and theorems, and no code: what a trace with holes means, and demand 3 over any sequence of seen and unseen ticks.
#![tactic(auto)]
