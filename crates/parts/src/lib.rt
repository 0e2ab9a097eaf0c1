// Definitions and laws alone: groups in parts that move no common site. No code.

#![tactic(auto)]
