//! The taps of an input, and its certificates.
use aud_reader::Line;
use aud_tap::Taps;
use std::marker::Model;

/// What the lines of an input are.
#[derive(Clone, Copy, Drop)]
pub enum Layout {
    /// All are lines of the bundle.
    Bundle,
    /// Those that begin with `{` are certificates, and the others are lines of the bundle.
    BundleAndCertificates,
}

/// The taps of an input, and the lines that are certificates, with their numbers.
#[derive(Drop)]
pub struct Input {
    pub taps: Taps,
    pub certificates: Vec<Line>,
}

impl Model for Input {
    ghost use Rattle.aud_input.specs.Input.{InputSeen};

    ghost Value = { InputSeen };

    ghost view = { λ s. record { taps = s.taps; certificates = s.certificates.items } };
}
