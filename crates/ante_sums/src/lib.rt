//! Sums over maps: what all entries weigh together, and how a change of one entry moves that sum.
#![tactic(auto)]
