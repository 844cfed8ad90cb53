// What holds of one box and of two, after whole histories of calls with a line. There are theorems here and no code.
#![tactic(auto)]
