// Messages put together from their parts: forwarding, writing, appending and moving the body as definitions, demand 3 and the round trip as theorems.
#![tactic(auto)]
