// What follows from the promises of the public calls alone: the statements stand in specs/, the theorems in proofs/.
#![tactic(auto)]
