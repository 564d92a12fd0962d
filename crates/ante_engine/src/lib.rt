//! The chain's engine: blocks and transactions over the store, and read-only transactions on its newest state.
#![tactic(auto)]

mod effects;
mod engine;
mod founding;
mod machine;

pub use effects::ChainEffects;
pub use engine::Engine;
pub use founding::{EngineError, founding_genesis};
