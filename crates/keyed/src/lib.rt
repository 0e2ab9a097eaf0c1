// Definitions and laws alone: rows folded by their keys. No code.

#![tactic(auto)]
