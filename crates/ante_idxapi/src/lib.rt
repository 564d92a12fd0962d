//! The calls of a contract on the rows of secondary indexes, once over the width of the keys and then for each width: rows are
//! found, walked, stored, updated and removed, by the numbers that stand for them.
#![tactic(auto)]

mod index128;
mod index256;
mod index64;
mod keys;
mod looking;
mod places;
mod walking;
mod writing;

pub use index64::{
    db_idx64_end, db_idx64_find_primary, db_idx64_find_secondary, db_idx64_lowerbound,
    db_idx64_next, db_idx64_previous, db_idx64_remove, db_idx64_store, db_idx64_update,
    db_idx64_upperbound,
};
pub use index128::{
    db_idx128_end, db_idx128_find_primary, db_idx128_find_secondary, db_idx128_lowerbound,
    db_idx128_next, db_idx128_previous, db_idx128_remove, db_idx128_store, db_idx128_update,
    db_idx128_upperbound,
};
pub use index256::{
    db_idx256_end, db_idx256_find_primary, db_idx256_find_secondary, db_idx256_lowerbound,
    db_idx256_next, db_idx256_previous, db_idx256_remove, db_idx256_store, db_idx256_update,
    db_idx256_upperbound,
};
pub use keys::Indexed;
pub use looking::{
    db_idx_end, db_idx_find_primary, db_idx_find_secondary, db_idx_lowerbound, db_idx_upperbound,
};
pub use walking::{db_idx_next, db_idx_previous};
pub use writing::{db_idx_remove, db_idx_store, db_idx_update};
