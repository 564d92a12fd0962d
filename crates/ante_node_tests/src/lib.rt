//! What `ask` answers, by table.
#![tactic(auto)]

#[cfg(test)]
mod rows;
#[cfg(test)]
mod tests;
