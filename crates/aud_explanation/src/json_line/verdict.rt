//! The members of the verdict.
ghost use Rattle.std.specs.Prelude.{◌≡◌, OnOk};
ghost use Rattle.std.specs.Option.{option_copied};
ghost use Rattle.serde_json.specs.View.{members_view};
ghost use Rattle.aud_explanation.specs.JsonVerdict.{fault_off, with_verdict};

use crate::json_line::value::put_texts;
use aud_cert::{Class, Fault, fault_word};
use aud_verdict::Verdict;
use serde_json::{Map, Value, put};
use std::alloc::{AllocError, Global};

/// The offset of the entry that the fault is of.
fn fault_off(fault: &Fault) -> Option<&str>
    ensures { option_copied result ≡ fault_off fault.now }
{
    match fault {
        Fault::Content(off)
        | Fault::Extra(off)
        | Fault::Doubled(off)
        | Fault::Swapped(off)
        | Fault::Lost(off) => Some(off.as_str()),
        _ => None,
    }
}

/// Puts the version, the session, the verdict on it, the fault, the offset of its entry, and its class.
#[tactic(auto, unfolding(crate::specs::JsonVerdict::with_verdict))]
pub(crate) fn put_verdict<'v>(
    alloc: Global,
    members: &mut Map<String, Value>,
    pid: &'v str,
    verdict: &'v Verdict,
    class: Option<Class>,
) -> Result<(), AllocError>
    ensures { OnOk result (members_view members.new.entries
        ≡ with_verdict pid.now verdict.now class (members_view members.old.entries)) }
{
    let (word, fault, off) = match verdict {
        Verdict::Yes { .. } => ("yes", None, None),
        Verdict::No(fault) => ("no", Some(fault_word(fault)), fault_off(fault)),
    };
    let texts = [
        ("pid", Some(pid)),
        ("verdict", Some(word)),
        ("fault", fault),
        ("off", off),
    ];
    put(members, alloc, "v", Value::from(1u64))?;
    put_texts(alloc, members, &texts)?;
    let class = match class {
        Some(class) => Value::String(format!(in alloc; "{class}")?),
        None => Value::Null,
    };
    put(members, alloc, "class", class)
}
