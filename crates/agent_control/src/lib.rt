//! The control protocol of a running agent: one line of JSON asks for something, and lines answer it.
//!
//! The contract for the layers above: [`front_of`] says how far the first line of what came has come; [`read_request`] gives what
//! the definition Request gives for a line, or its first fault, and [`write_request`] the line that is read so; [`write_reply`]
//! gives the lines of an answer, and [`read_reply`] reads them and no others. No credential is in a fault, nor in what
//! `Debug` shows. Begin with `request`, then `reader`; the definitions begin with `specs/Words.antt`.
#![tactic(auto)]

mod fault;
mod front;
mod laws;
mod limits;
mod reader;
mod reply;
mod reply_reader;
mod request;
mod tree;
mod when;
mod words;
mod writer;

pub use fault::RequestFault;
pub use front::{Front, front_of};
pub use laws::{
    limits_of_control, replies_are_read_back, requests_are_read, requests_are_read_back,
};
pub use limits::LINE_MAX;
pub use reader::read_request;
pub use reply::{ControlReply, Lines, write_reply};
pub use reply_reader::read_reply;
pub use request::ControlRequest;
pub use when::{When, read_when};
pub use writer::write_request;
