// The case table of docs/RULES.md, proved of the definitions. There is no function here: the cases stand in specs/, the theorem in proofs/.

#![tactic(auto)]
