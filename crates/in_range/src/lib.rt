// What a strict call writes is in range (document 02, §8): the statement stands in specs/, the theorem in proofs/.
#![tactic(auto)]
