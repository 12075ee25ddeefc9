// The three demands on one page, specs/Demands.antt: a record each, and in proofs/ that each holds. There is no code here.
#![tactic(auto)]
