// Blocks of unequal size, one after the other from the front of one list of numbers. This crate has no code: its specs say where a
// block begins and how blocks are read, and its proofs are the laws of blocks replaced, taken out, put in and read back. Records of
// one width, the tables of `base_tables`, are the blocks of constant size.
#![tactic(auto)]
