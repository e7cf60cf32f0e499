//! What the lines of a bundle are read as, in one order and in another.
ghost use Rattle.std.specs.Prelude.{◌≡◌, ◌≢◌, ◌⊎◌, ℕ, Bool, List, ◌∷◌, ◌++◌, true};
ghost use Rattle.aud_reader.specs.declared.line.Line.{Line};
ghost use Rattle.aud_reader.specs.Bundle.{taps_of};
ghost use Rattle.aud_input.specs.declared.input.Layout.TheVariants.{Bundle};
ghost use Rattle.aud_input.specs.Input.{input_of};
ghost use Rattle.aud_laws.specs.Order.{first_word, is_known, names_in, AreSameButForOrder, AreReadAlike, texts};
ghost use Rattle.aud_laws.specs.Inputs.{line_texts};
ghost use Rattle.aud_cli.specs.declared.choice.Mode.{Mode};
ghost use Rattle.aud_cli.specs.declared.choice.Mode.TheVariants.{Audit};
ghost use Rattle.aud_verdict.specs.Output.{OutputSeen};
ghost use Rattle.aud_app.specs.Output.{IsOutput, layout_of};
ghost use Rattle.aud_laws.specs.Outputs.{AreWrittenAlike};

/// Lines that are the same but for their order are read as the same taps, or both refused: a law of
/// [`read_bundle`](aud_reader::read_bundle).
///
/// Each tap's lines have to stand in the same order among one another, and so have the first lines of the taps. Lines
/// without bytes may stand anywhere. Which line is refused, and for what, may differ.
pub fn lines_in_any_order()
    ensures { (lines others : List Line) → AreSameButForOrder (texts lines) (texts others)
        → AreReadAlike (taps_of lines) (taps_of others) }
{}

/// The same of the bytes of two inputs: a law of [`InputReader`](aud_input::InputReader), where all lines are
/// the bundle's.
pub fn inputs_in_any_order()
    ensures { (bytes others : List ℕ) → AreSameButForOrder (line_texts bytes) (line_texts others)
        → AreReadAlike (input_of Bundle bytes) (input_of Bundle others) }
{}

/// Two neighbouring lines of different taps, of which one had a line before, may stand in either order: the lines are
/// the same but for their order.
pub fn neighbours_in_any_order()
    ensures { (before after : List (List ℕ)) (line other : List ℕ)
        → first_word line ≢ first_word other
        → (is_known (names_in before) (first_word line) ≡ true)
        ⊎ (is_known (names_in before) (first_word other) ≡ true)
        → AreSameButForOrder (before ++ line ∷ other ∷ after) (before ++ other ∷ line ∷ after) }
{}

/// Inputs that are the same but for the order of their lines have the same output, or a line of each is refused: a law
/// of [`run`](aud_app::run) in the modes that read no certificates: `audit`, with equal `whole`, `prove`, `order` and
/// `upgrade`.
pub fn outputs_in_any_order()
    ensures { (mode : Mode) (whole : Bool) (bytes others : List ℕ) → layout_of mode ≡ Bundle
        → AreSameButForOrder (line_texts bytes) (line_texts others)
        → AreWrittenAlike mode whole bytes others }
{}

/// An input has one output of an audit with equal `whole`, whichever workers found it: with [`outputs_in_any_order`],
/// inputs that are the same but for the order of their lines, of which none is refused, are given the same bytes.
pub fn audit_is_one()
    ensures { (whole : Bool) (bytes : List ℕ) (one other : OutputSeen)
        → IsOutput Audit whole bytes one → IsOutput Audit whole bytes other → one ≡ other }
{}
