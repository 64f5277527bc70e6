// The grammar of BSON: what a document is, byte for byte, and the theorem that `bson` reads exactly these.
#![tactic(auto)]
