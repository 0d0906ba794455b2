//! The seed of hash maps.
//!
//! Whoever knows how a map hashes can choose keys that it takes for one another at first, and then each look goes over all of
//! them. So a program draws a seed when it begins, and all its maps hash by that.
#![tactic(auto)]

mod seed;

pub use seed::HashSeed;
