// Demand 3 of the event program: for every text whose lines stand in renames, the two books agree after each line, and what is printed is the text of
// the version book's replies. This crate has no code: its specs say which calls a text's lines make, and its proofs carry the theorem of `pool_books` to them.
// Two texts show that the claim can be met: document 01's sample, and one with all twelve calls.
#![tactic(auto)]
