//! JSON values as compact text, written piece by piece with no tree in between.
#![tactic(auto)]

mod escape;
mod scalar;
mod writing;

pub use scalar::{Member, Scalar};
pub use writing::{
    ToJson, begin_object, end_object, put_array, put_key, put_member, put_object, put_string,
};
