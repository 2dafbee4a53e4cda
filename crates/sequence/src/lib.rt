// One sequence of our sender, heard by an empty record: whatever was heard of it, in which order and how often, nothing is refused, and
// the record depends only on which frames were heard. No functions: the definitions are in specs/, the laws in proofs/.
#![tactic(auto)]
