// The demands, stated on one page with the proofs that each cites: proofs/Demands.antt, and Entries.antt beside it. There is no code here.

#![tactic(auto)]
