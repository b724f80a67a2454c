// The network below each layer and how the answer to it is read: definitions in specs/, theorems in proofs/.
#![tactic(auto)]
