// Definitions and laws alone: sums of Pauli words projected onto a momentum sector. No code.

#![tactic(auto)]
