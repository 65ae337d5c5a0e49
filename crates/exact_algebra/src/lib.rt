//! Proofs over the whole numbers that every exact crate cites: polynomial identities, sizes of sums
//! of products, and signs. It has no code.
#![tactic(auto)]
