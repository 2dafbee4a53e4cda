// The three demands, stated once over the promises of the crates below, and which wrong versions they shut out. No functions: what is
// demanded is in specs/, that it is so is in proofs/.
#![tactic(auto)]
