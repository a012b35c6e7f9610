// Definitions and theorems, and no code: the report and the verdicts of a trace, and demands 2 and 3 of every accepted trace.
#![tactic(auto)]
