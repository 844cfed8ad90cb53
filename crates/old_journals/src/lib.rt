// Theorems alone: a journal is converted exactly if its listing would not end with a refusal, and its conversion is answered as it was before the
// meaning of 0 pages changed.
#![tactic(auto)]
