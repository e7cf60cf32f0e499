//! Certificates over borrowed slices of the logs, their text, and the faults of sessions that are not answered yes.
//!
//! Begin at [`Certificate`], which [`read_cert`] reads and [`write_cert`] writes; [`CertFault`] says why a text is not
//! read. [`Fault`] says why a session has no certificate, or is not answered yes, and [`Class`] what that is about.
//!
//! With the `logs` of `examples/bundle_a.jsonl`:
//!
//! ```
//! use aud_cert::{CertFault, Fault, read_cert, write_cert};
//!
//! let text = r#"{"client":"c1","pid":"P","spans":[["r",1,1],["s1",1,1]],"turns":[["a",1,4,0,1]]}"#;
//! let cert = read_cert(alloc, text.as_bytes(), logs)?;
//! assert_eq!(rt; cert.client, "c1");
//! assert_eq!(rt; cert.turns.len(), 1);
//! assert_eq!(rt; write_cert(alloc, &cert)?.as_str(), text);
//! let refused = read_cert(alloc, b"{", logs);
//! assert!(rt; matches!(refused, Err(CertFault::Syntax)));
//! assert_eq!(rt; format!(in alloc; "{}", Fault::Window(2))?.as_str(), "WINDOW 2");
//! ```
#![tactic(auto)]

mod certificate;
mod class;
mod fault;
mod lend;
mod parsed;
mod place;
mod read;
mod text_fault;
mod within;
mod word;
mod write;

pub use certificate::{Certificate, Turn};
pub use class::{Class, class_of};
pub use fault::Fault;
pub use place::turn_place;
pub use read::read_cert;
pub use text_fault::CertFault;
pub use word::fault_word;
pub use write::write_cert;
