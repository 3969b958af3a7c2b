// The theory of allowances: definitions and laws on numbers, no code. See specs/Laws.antt.

#![tactic(auto)]
