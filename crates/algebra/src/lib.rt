// Mathematics only: operations and definitions in specs/, their laws and the distance lemma in proofs/.
#![tactic(auto)]
