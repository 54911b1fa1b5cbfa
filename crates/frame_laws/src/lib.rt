// Theorems alone: demand 3 over the words of frame tables. specs/Demand3.antt has the statements, proofs/ their proofs.

#![tactic(auto)]
