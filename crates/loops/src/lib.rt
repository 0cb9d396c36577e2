// Loops as lists: what the definitions of the crates above are written with, and the laws. There is no code here.
#![tactic(auto)]
