// What happened to a line, and who waits by that.
#![tactic(auto)]
