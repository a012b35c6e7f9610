// Definitions and theorems, and no code: any calls of the recorder from a fresh start.
#![tactic(auto)]
