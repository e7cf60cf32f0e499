//! Options that may stand once.
ghost use Rattle.std.specs.Prelude.{◌≡◌};
ghost use Rattle.aud_cli.specs.Once.{once, switched_on};

/// What an option says, where that is understood and nothing was said before.
pub fn once<T: Copy>(before: Option<T>, said: Option<T>) -> Option<T>
    ensures { result ≡ once before said }
{
    match before {
        Some(_) => None,
        None => said,
    }
}

/// An option without a value, where it didn't stand before.
pub fn switched_on(before: bool) -> Option<bool>
    ensures { result ≡ switched_on before }
{
    if before { None } else { Some(true) }
}
