//! The words of a stranger, such as names, sources and lines, in one printable line, and documents
//! of JSON.
//!
//! ```
//! let name = Shown(&package.name);
//! println!(rt; "+ {name}")?;
//! ```
#![tactic(auto)]

pub mod document;
pub mod form;
pub mod laws;
pub mod shown;
pub mod value;

pub use crate::document::{JsonWriter, Layout};
pub use crate::form::Form;
pub use crate::shown::{Quoted, Shown};
pub use crate::value::{ToJson, json_line, write_array, write_text_or_null};
