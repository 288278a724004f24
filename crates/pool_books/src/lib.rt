// Demand 3: the pool's calls, listed in any order, keep every live version equal to the plain book. This crate has no code: its specs
// say what the two books are and what the theorem claims, and its proofs prove it of the pool's model in the crate `pool_rules`.
#![tactic(auto)]
