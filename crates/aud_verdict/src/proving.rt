//! Certificates as lines.
ghost use Rattle.std.specs.Prelude.{◌≡◌, ◌++◌, IfOk, OnOk, string_bytes, is_some};
ghost use Rattle.std.specs.List.{list_all};
ghost use Rattle.aud_verdict.specs.Proving.{proof_line, prove_text};

use aud_tap::Text;
use std::alloc::{AllocError, Global};

/// Puts a session's certificate at the end, where it has one.
fn push_proof(out: &mut String, proof: &Option<Text>) -> Result<(), AllocError>
    ensures { OnOk result (string_bytes out.new ≡ string_bytes out.old ++ proof_line proof.now) }
{
    match proof {
        Some(text) => {
            let text = text.as_str();
            writeln!(out, "{text}")
        }
        None => Ok(()),
    }
}

/// Whether each session has a certificate.
pub fn are_all_shown(proofs: &[Option<Text>]) -> bool
    ensures { result ≡ list_all is_some proofs.now }
{
    proofs.iter().all(|proof| proof.is_some())
}

/// The certificates, a line each, of the sessions that have one.
pub fn prove_text(alloc: Global, proofs: &[Option<Text>]) -> Result<String, AllocError>
    ensures { IfOk result (λ s. string_bytes s ≡ prove_text proofs.now) }
{
    let mut out = String::new(alloc);
    for proof in proofs {
        push_proof(&mut out, proof)?;
    }
    Ok(out)
}
