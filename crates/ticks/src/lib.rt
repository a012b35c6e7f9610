// Definitions and theorems, and no code: what an accepted trace shows at each tick, and the trace cut at a tick.
#![tactic(auto)]
