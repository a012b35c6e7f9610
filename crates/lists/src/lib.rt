// Definitions and laws, and no code: lists by their numbers, and tests as facts.
#![tactic(auto)]
