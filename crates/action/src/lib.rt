// Definitions and theorems alone: what a group of site permutations does to Pauli words. No code.

#![tactic(auto)]
