// The grammar of OP_MSG: what a message is, byte for byte, and the theorem that `opmsg` reads exactly these and shows what they are.
#![tactic(auto)]
