//! The values of a table of TOML by their keys and types, with an error that names the key.
#![tactic(auto)]

pub mod fields;

pub use crate::fields::{
    list_in, members_in, missing_key, number_at, optional_list, optional_text, required_list,
    required_members, required_text, text_in, value_at, wrong_type,
};
