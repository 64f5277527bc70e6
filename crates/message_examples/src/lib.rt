// Worked examples of messages, by computation: the trials, views and moves, texts, dotted identifiers, chains of relays. There is no code.
#![tactic(auto)]
