//! The answers to faults: what the client is told where a message or a connection went wrong.
//!
//! Each is a response of version 1.1 with a line of plain text, behind which the connection is closed (RFC 9110
//! section 15.5, RFC 9112 section 9.6). Faults of the client's message are answered by codes from 400, those of the
//! server or the way to it by 502. To HEAD the line is not sent, and its length stands as if it were (RFC 9110
//! section 9.3.2).
ghost use Rattle.std.specs.Prelude.{◌≡◌, ◌++◌, OnOk, OnErr};
ghost use Rattle.px_text.specs.Prefix.{AddsPrefixOf};
ghost use Rattle.px_write.specs.Error.{answer_head, error_head, error_line, error_text, fault_message, fault_status};

use crate::append::append;
use itoa::Buffer;
use px_message::Fault;
use px_text::NoMemory;

/// Appends the answer to the fault, to a HEAD or to another method. After `NoMemory` the vector ends in the first bytes
/// of it.
pub fn error_text(fault: Fault, asked_head: bool, out: &mut Vec<u8>) -> Result<(), NoMemory>
    ensures ok { OnOk result (out.new.items ≡ out.old.items ++ error_text fault asked_head) }
    ensures err { OnErr result (AddsPrefixOf (error_text fault asked_head) out.old.items out.new.items) }
{
    write_head(fault, out)?;
    write_line(fault, asked_head, out)
}

// The head; its length counts the message and the line feed behind it.
fn write_head(fault: Fault, out: &mut Vec<u8>) -> Result<(), NoMemory>
    ensures ok { OnOk result (out.new.items ≡ out.old.items ++ error_head fault) }
    ensures err { OnErr result (AddsPrefixOf (error_head fault) out.old.items out.new.items) }
{
    let mut digits = Buffer::new();
    let length = digits.format(fault_message(fault).len() + 1).as_bytes();
    write_answer_head(fault_status(fault), length, out)
}

// The head of an answer of this status, with so many bytes behind it.
fn write_answer_head(status: &[u8], length: &[u8], out: &mut Vec<u8>) -> Result<(), NoMemory>
    ensures ok { OnOk result (out.new.items ≡ out.old.items ++ answer_head status.now length.now) }
    ensures err { OnErr result (AddsPrefixOf (answer_head status.now length.now) out.old.items out.new.items) }
{
    append(
        out,
        &[
            b"HTTP/1.1 ",
            status,
            b"\r\nServer: mitm\r\nConnection: close\r\nContent-Type: text/plain\r\nContent-Length: ",
            length,
            b"\r\n\r\n",
        ],
    )
}

// The message on a line, or nothing to HEAD.
fn write_line(fault: Fault, asked_head: bool, out: &mut Vec<u8>) -> Result<(), NoMemory>
    ensures ok { OnOk result (out.new.items ≡ out.old.items ++ error_line fault asked_head) }
    ensures err { OnErr result (AddsPrefixOf (error_line fault asked_head) out.old.items out.new.items) }
{
    if asked_head {
        return Ok(());
    }
    append(out, &[fault_message(fault), b"\n"])
}

// Code and reason of the answer.
#[tactic(auto, unfolding(crate::specs::Error::fault_status))]
fn fault_status(fault: Fault) -> &'static [u8]
    ensures { result.now ≡ fault_status fault }
{
    match fault {
        Fault::TooLong => b"431 Request Header Fields Too Large",
        Fault::BadHead
        | Fault::BadTarget
        | Fault::BothLengths
        | Fault::BadLength
        | Fault::BadCoding
        | Fault::BadChunk => b"400 Bad Request",
        Fault::NoConnection | Fault::ServerClosed | Fault::BadResponse | Fault::UpstreamRefused =>
            b"502 Bad Gateway",
    }
}

/// What is said of it, to the client and in the flow's error.
#[tactic(auto, unfolding(crate::specs::Error::fault_message))]
pub fn fault_message(fault: Fault) -> &'static [u8]
    ensures { result.now ≡ fault_message fault }
{
    match fault {
        Fault::BadHead => b"malformed head",
        Fault::TooLong => b"head too long",
        Fault::BadTarget => b"bad target",
        Fault::BothLengths => b"two lengths",
        Fault::BadLength => b"bad length",
        Fault::BadCoding => b"bad transfer coding",
        Fault::BadChunk => b"bad chunk",
        Fault::NoConnection => b"cannot connect",
        Fault::ServerClosed => b"server closed early",
        Fault::BadResponse => b"bad response",
        Fault::UpstreamRefused => b"upstream refused",
    }
}
