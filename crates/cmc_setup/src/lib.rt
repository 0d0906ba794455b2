//! What a run is given: the type `Scenario`, which keeps its bounds, and the test whether parts make one.
//!
//! It knows nothing of JSON: `cmc_scenario` reads scenarios.
#![tactic(auto)]

mod fitting;
mod flags;
mod forms;
mod holding;
mod object_forms;
mod roles;
mod running;
mod sameness;
mod scenario;
mod stage;
mod steps;

pub use fitting::is_setup;
pub use roles::Roles;
pub use scenario::Scenario;
pub use stage::Stage;
pub use steps::Steps;
