// UTF-8 as RFC 3629 defines it: what it is, what is read as text, and the theorems that tie the two.
#![tactic(auto)]
