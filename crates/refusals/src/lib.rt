//! Every reason for which the engine refuses a call.

#![tactic(auto)]

pub mod layer;
pub mod refusal;
pub mod sizes;
pub mod text;
pub mod told;

pub use layer::Layer;
pub use refusal::Refusal;
pub use sizes::enough;
pub use told::refused_as;
