//! Taps that were read, and upgraded ones, are those of a bundle.
ghost use Rattle.std.specs.Prelude.{◌≡◌, List, Ok};
ghost use Rattle.aud_tap.specs.declared.taps.Tap.{Tap};
ghost use Rattle.aud_reader.specs.declared.line.Line.{Line};
ghost use Rattle.aud_reader.specs.Bundle.{taps_of};
ghost use Rattle.aud_writer.specs.OfABundle.{AreOfABundle};
ghost use Rattle.aud_upgrade.specs.Upgraded.{upgraded};

/// The taps that lines are read as keep to all that a bundle's taps keep to: a law of
/// [`read_bundle`](aud_reader::read_bundle).
///
/// So whoever has them from the reader need test none of it again: each name has a tap's form and stands once; at most
/// one tap is of the stream; there are no more taps, records and pids than may be; each record is well formed, and of
/// its tap's version; and each record of a client may follow those before it.
pub fn read_taps_are_of_a_bundle()
    ensures { (lines : List Line) (taps : List Tap) → taps_of lines ≡ Ok taps → AreOfABundle taps }
{}

/// Upgraded taps keep to all of it, where the taps do that they were made from: a law of
/// [`upgrade`](aud_upgrade::upgrade).
///
/// So, with [`read_taps_are_of_a_bundle`], an upgrade of a bundle that was read goes past no limit and makes no record
/// that a reader would refuse: it is a bundle again, in version 2.
pub fn upgraded_taps_are_of_a_bundle()
    ensures { (taps : List Tap) → AreOfABundle taps → AreOfABundle (upgraded taps) }
{}
