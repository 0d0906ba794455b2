//! One line of a printed history: what is kept goes on with it, or a clause fails at it.
#![tactic(auto)]

mod asking;
mod calling;
mod failing;
mod lines;
mod placed;

pub use lines::step;
