//! The messages of HTTP/1.1 over the devices of `base_device`, whose names are given out here too.
//!
//! The contract for the layers above: what [`write_request`] and [`write_reply`] append is one definition's text
//! (`specs/Written.antt`), and what [`read_request`] and [`read_reply`] answer is one relation between all the bytes and
//! the answer (`specs/Messages.antt`), however a source cuts them. Begin with `request` and `reply`;
//! then `message` has what a kind of message is, `known` how its bytes are judged, and `receive` how it is read.
#![tactic(auto)]

mod arriving;
mod body;
mod chunk;
mod date;
mod dated_reply;
mod empty_line;
mod first_bytes;
mod found_head;
mod framing;
mod http_fault;
mod known;
mod message;
mod named_field;
mod receive;
mod reply;
mod reply_message;
mod request;
mod request_message;
mod room;
mod round_trip;
mod verdict;
mod writing;

pub use arriving::Arriving;
pub use base_device::{
    Counted, Device, Failed, InputFault, MemoryPair, MemorySink, MemorySource, Sink, SinkFault,
    Source, Watched, read_all, write_all,
};
pub use dated_reply::DatedReply;
pub use found_head::MOST_FIELDS;
pub use http_fault::HttpFault;
pub use known::{MOST_MESSAGE, SMALL_HEAD};
pub use receive::{read_dated_reply, read_reply, read_request};
pub use reply::Reply;
pub use request::Request;
pub use room::Room;
pub use round_trip::{
    held_is_read, http_limits_law, reply_reads_back, request_reads_back, undated_reply_reads_back,
};
pub use writing::{SendFault, text_of_request, write_reply, write_request};
