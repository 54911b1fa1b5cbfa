// Definitions and theorems alone, no code: a heap's blocks, free and granted, and when a heap is sound.

#![tactic(auto)]
