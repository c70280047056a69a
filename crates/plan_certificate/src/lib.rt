//! Certificates: what a planner claims of a forest, and their text.
//!
//! The contract for the layers above: [`read`] gives the certificate that a text writes over a forest, in version 1 or 2,
//! or the fault of its first line at fault ([`first_fault_law`]); [`print`] writes a planner's decision, and [`text_of`] a claim, in version 2;
//! and each certificate is read back from its text ([`certificates_are_read_back`], [`decisions_are_read_back`]). Begin
//! with `cert`, then `specs/CertificateText.antt`.
#![tactic(auto)]

mod cert;
mod fault;
mod first_fault;
mod laws;
mod lines;
mod printer;
mod reader;
mod run_line;
mod run_lines;
mod writer;

pub use cert::{Body, Cert, MAX_LINES, MOST_CERTIFICATE, Runs, Version};
pub use fault::CertFault;
pub use first_fault::first_fault_law;
pub use laws::{certificates_are_read_back, decisions_are_read_back, limits_of_certificates};
pub use plan_rule::LIMIT;
pub use printer::{PrintFault, print};
pub use reader::{read, read_start};
pub use writer::text_of;
