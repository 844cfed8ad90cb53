// Theorems alone: what the calls promise of histories holds of the bytes that a box lends to the C door, and of the listing of a journal.
#![tactic(auto)]
