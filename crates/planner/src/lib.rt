// The demands, each as one theorem over the definitions that the contracts of the crates below cite. There is no code here.
#![tactic(auto)]
