//! The reading of a certificate.
ghost use Rattle.std.specs.Prelude.{◌≡◌, ◌<◌, length, IfOk};
ghost use Rattle.std.specs.List.{list_all};
ghost use Rattle.serde_json.specs.View.{view};
ghost use Rattle.aud_tap.specs.TapName.{is_tap_name};
ghost use Rattle.aud_cert.specs.Steps.{Gives};
ghost use Rattle.aud_cert.specs.Parsed.{ParsedTurn};
ghost use Rattle.aud_cert.specs.Certificate.{IsOver};
ghost use Rattle.aud_cert.specs.Sound.{IsSound};
ghost use Rattle.aud_cert.specs.Reading.{certificate_json, is_formed, certificate_in, certificate_of};

use crate::certificate::Certificate;
use crate::lend::certificate;
use crate::parsed::{ParsedCertificate, ParsedTurn, parsed};
use crate::text_fault::CertFault;
use crate::within::is_within;
use aud_node::Logs;
use aud_tap::{is_session_id, is_tap_name};
use serde_json::{Category, Value};
use std::alloc::Global;

/// The value of JSON text.
fn json(alloc: Global, text: &[u8]) -> Result<Value, CertFault>
    ensures { Gives view result (certificate_json text.now) }
{
    match Value::from_slice(alloc, text) {
        Ok(value) => Ok(value),
        Err(e) => match e.classify() {
            Category::Memory => Err(CertFault::Memory),
            _ => Err(CertFault::Syntax),
        },
    }
}

fn are_nodes_named(turns: &[ParsedTurn<'_>]) -> bool
    ensures { result ≡ list_all (λ (t : ParsedTurn). is_tap_name t.node) turns.now }
{
    turns.iter().all(|turn| is_tap_name(turn.node))
}

/// There is a turn, and the pid and the names are of the form that they have in a bundle.
fn is_formed(parsed: &ParsedCertificate<'_, '_>) -> bool
    ensures { result ≡ is_formed parsed.now }
{
    if parsed.turns.as_slice().is_empty() {
        return false;
    }
    if !is_session_id(parsed.pid) || !is_tap_name(parsed.client) {
        return false;
    }
    are_nodes_named(parsed.turns.as_slice())
}

/// The certificate of a text, which lends its names and records from the logs. Unknown keys are passed over, and of a
/// key that stands twice the last value counts. `Syntax` comes before `UnknownTap`, and that before `Range`, wherever
/// in the text they are found; docs/FORMAT.md says when each holds. `Memory` may come in place of each. Rooms and the
/// pid are copied; whether the spans and the turns are the session's is not asked.
#[tactic(auto, unfolding(crate::specs::Reading::certificate_of))]
pub fn read_cert<'a>(
    alloc: Global,
    text: &[u8],
    logs: &'a Logs<'_>,
) -> Result<Certificate<'a>, CertFault>
    ensures reads { Gives (λ cert. cert) result (certificate_of logs.now text.now) }
    ensures over { IfOk result (λ cert. IsOver logs.now cert) }
    ensures some { IfOk result (λ cert. 0 < length cert.turns) }
    ensures sound { IfOk result (λ cert. IsSound logs.now cert) }
{
    let d = json(alloc, text)?;
    certificate_in(alloc, logs, &d)
}

/// The certificate that JSON tells, over the logs.
fn certificate_in<'a>(
    alloc: Global,
    logs: &'a Logs<'_>,
    d: &Value,
) -> Result<Certificate<'a>, CertFault>
    ensures { Gives (λ cert. cert) result (certificate_in logs.now (view d.now)) }
{
    let parsed = parsed(alloc, d)?;
    if !is_formed(&parsed) {
        return Err(CertFault::Syntax);
    }
    let cert = certificate(alloc, logs, parsed)?;
    if !is_within(logs, &cert) {
        return Err(CertFault::Range);
    }
    Ok(cert)
}
