//! The causes that a summary counts.
ghost use Rattle.std.specs.Prelude.{◌≡◌, true};
ghost use Rattle.std.specs.List.{list_any};
ghost use Rattle.std.specs.Str.{bytes_eq};
ghost use Rattle.aud_causes.specs.declared.cause.Cause.{Cause};
ghost use Rattle.aud_causes.specs.Table.{id_text};
ghost use Rattle.aud_explain_app.specs.Summary.Causes.{cause_names};

/// Each cause, of a fault or of a refused recovery, has a name of the table by which a summary counts them,
/// [`cause_names`](aud_explain_app::cause_names): so none that is told is left out of the count.
pub fn causes_are_in_summary()
    ensures { (cause : Cause) → list_any (bytes_eq (id_text cause)) cause_names ≡ true }
{}
