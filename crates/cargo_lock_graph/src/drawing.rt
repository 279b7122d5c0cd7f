//! Drawings of graphs: the text of what is reachable from a node, written to a sink or a writer.

pub mod entry;
pub mod frames;
mod label;
pub mod laws;
mod levels;
mod look;
mod put;
mod render;
mod sink;
mod symbols;
mod walk;

pub use crate::drawing::look::Look;
pub use crate::drawing::render::{render_into, render_onto};
pub use crate::drawing::sink::{Sink, WriterSink};
pub use crate::drawing::symbols::Symbols;
