//! The record of a line: the line is opened, its kind looked at, and then the fields of that kind.
pub mod client;
mod fields;
pub mod header;
pub mod line;
pub mod name;
pub mod node;
pub mod record;
pub mod stream;

pub use header::tap_kind;
pub use line::parse_line;
pub use name::{cut_at_blank, tap_name};
pub use record::{is_client_kind, tap_of_kind};
