//! Tables of cases for the forms of the chain's data.
#![tactic(auto)]

#[cfg(test)]
mod ids;
#[cfg(test)]
mod lists;
#[cfg(test)]
mod names;
#[cfg(test)]
mod packed;
#[cfg(test)]
mod texts;
#[cfg(test)]
mod traces;
