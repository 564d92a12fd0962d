//! The data of the chain: transactions, blocks and genesis with their packed forms and ids, and traces with their text.
#![tactic(auto)]

mod builtin;
mod chain;
mod context;
mod failure;
mod failure_words;
mod forms;
mod ids;
mod job;
mod label;
pub mod limits;
mod rendering;
mod trace;

pub use builtin::{EOSIO, builtin_head, builtin_packed};
pub use chain::{
    Action, Block, BlockInfo, Extension, Genesis, GenesisAccount, Head, Header, Receipt,
    Transaction,
};
pub use context::{Mode, RunContext};
pub use failure::Failure;
pub use failure_words::{failure_code, failure_name};
pub use forms::{
    read_action, read_block, read_genesis, read_trx, write_block, write_genesis, write_trx,
};
pub use ids::{block_id, block_num, signing_digest, trx_id, trx_root};
pub use job::ReadJob;
pub use label::Label;
pub use rendering::trace_text;
pub use trace::{ActionTrace, Trace};
