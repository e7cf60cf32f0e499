//! How many recoveries were granted, and how many weren't.
ghost use Rattle.std.specs.Prelude.{◌≡◌, length};
ghost use Rattle.std.specs.List.{filter};
ghost use Rattle.aud_session_facts.specs.Recoveries.{is_granted, is_refused};

use crate::asked::Recovery;

/// How many of the recoveries were granted.
pub fn granted(recoveries: &[Recovery]) -> usize
    ensures { result ≡ length (filter is_granted recoveries.now) }
{
    let mut count = 0;
    for recovery in recoveries {
        if recovery.granted {
            count += 1;
        }
    }
    count
}

/// How many of the recoveries were not granted.
pub fn refused(recoveries: &[Recovery]) -> usize
    ensures { result ≡ length (filter is_refused recoveries.now) }
{
    let mut count = 0;
    for recovery in recoveries {
        if !recovery.granted {
            count += 1;
        }
    }
    count
}
