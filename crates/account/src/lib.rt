// The ink account: a plain machine fed with the calls alone. There is no code here: the definitions are in specs/rules, the theorem in
// proofs/Theorem.antt, and the ties to the store's own functions in proofs/Tied.antt.
#![tactic(auto)]
