// The grammar of stored listings: what one is, byte for byte; and the theorems that the reader of listings accepts exactly these and refuses others at the first bad or
// missing line, and that whatever the program lists is one.
#![tactic(auto)]
