// The worked cases of document 01 over whole runs, and that the demands speak of something: definitions and laws, no code.

#![tactic(auto)]
