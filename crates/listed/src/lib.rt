// No code: what the listing program has to print, worked out by the definitions.

#![tactic(auto)]
