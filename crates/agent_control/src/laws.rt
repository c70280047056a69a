ghost use Rattle.std.specs.Prelude.{◌≡◌};
ghost use Rattle.agent_control.specs.Laws.{ReplyFound, ReplyOnly, RequestFound, RequestOnly, RequestWrittenIsRead, WhyIsLine};
ghost use Rattle.agent_control.specs.declared.limits.TheConstants.{LINE_MAX};

/// The law of the limit: a request has at most 65,536 bytes.
pub fn limits_of_control()
    ensures { LINE_MAX ≡ 65536 }
{}

/// The laws of reading: what is read of a line is what the line asks for, and each line that asks for something is read so.
pub fn requests_are_read()
    ensures found { RequestFound }
    ensures only { RequestOnly }
{}

/// The law that joins writing and reading: what is written of a request that a client may make is one line and its line feed,
/// and is read as that request.
pub fn requests_are_read_back()
    ensures { RequestWrittenIsRead }
{}

/// The laws of replies: the text of a reply is read as that reply, and no other text is; why a request was not read is one
/// line.
pub fn replies_are_read_back()
    ensures found { ReplyFound }
    ensures only { ReplyOnly }
    ensures why { WhyIsLine }
{}
