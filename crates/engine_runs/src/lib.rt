// Runs of the engine's definitions, computed. No code: see specs/Runs.antt and proofs/Cases.antt.

#![tactic(auto)]
