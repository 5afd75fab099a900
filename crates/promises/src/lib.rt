// What the library promises: no code. Each demand is a page of specs/, and its proof in proofs/ cites.
#![tactic(auto)]
