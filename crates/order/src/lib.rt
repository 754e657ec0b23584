// Order, races and judgement of a recorded run: definitions in specs/, theorems in proofs/. No code.
#![tactic(auto)]
