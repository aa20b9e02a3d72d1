// A folded stream gives the bytes of its flat one (document 02, §4): the flat stream stands in specs/, the theorem in proofs/.
#![tactic(auto)]
