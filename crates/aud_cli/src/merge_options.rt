//! What the arguments of `merge` ask for.
use aud_base::{Text, Texts};

/// Which reports are to be one.
#[derive(Drop)]
pub struct MergeOptions {
    /// The folder that the parts were written to.
    pub folder: Text,
    /// The names of the reports on the parts, in any order: one at least, and `-` is standard input.
    pub reports: Texts,
}
