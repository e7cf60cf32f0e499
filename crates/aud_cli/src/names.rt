//! Names in a list, with commas between them.
ghost use Rattle.std.specs.Prelude.{◌≡◌};
ghost use Rattle.aud_cli.specs.Names.{has_name, names_in};

/// Whether this name is in the list.
pub fn has_name(list: &str, name: &str) -> bool
    ensures { result ≡ has_name (names_in list.now) name.now }
{
    list.split(',').any(|part| part == name)
}
