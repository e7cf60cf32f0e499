//! The rows that show the fault of a session: which records of the bundle, on which lines, and what each says.
pub mod content;
pub mod difference;
pub mod frame_place;
pub mod node_records;
pub mod pushed;
pub mod session;
pub mod window;
