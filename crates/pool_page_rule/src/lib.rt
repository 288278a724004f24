// Document 02's W-201 on answers: the refusal 6 is now said by stamps and was said by pages before. This crate has no code: its specs
// keep the old rule as a definition and say that lists which met no 6 under it are answered the same, and its proofs prove it.
#![tactic(auto)]
