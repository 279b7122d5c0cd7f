//! An index of the keys of a list: their places, found without a walk over the list.
#![tactic(auto)]

pub mod places;
