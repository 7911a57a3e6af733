// Runs of edits and takings back: what they leave, in the words of tracks. There is no code: the definitions are in
// specs/, the theorems in proofs/.

#![tactic(auto)]
