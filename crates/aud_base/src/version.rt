//! The product's version.

/// The version of the program, as its `--version` and the manifest of a release give it.
pub const VERSION: &str = "1.0.0";
