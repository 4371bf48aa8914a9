// Demands 2 and 3, said of the numbers in slices, in proofs/, with what a passing curve and runs of k numbers are. There is no code here.
#![tactic(auto)]
