//! What an operator is answered, but for the line of `show`.
ghost use Rattle.std.specs.Prelude.{◌≡◌, ◌++◌, OnOk, OnErr};
ghost use Rattle.px_view.specs.Answers.{answer_text, answer_words};
ghost use Rattle.px_view.specs.Line.{id_text};

use crate::line::push_id;
use px_message::FlowId;
use px_text::NoMemory;

/// An answer of one line.
#[derive(Clone, Copy, Debug, PartialEq, Eq)]
pub enum OperatorAnswer {
    /// In a list: this live flow waits for the operator.
    Waiting(FlowId),
    /// In a list: this live flow waits for nobody.
    Going(FlowId),
    /// The list ends.
    End,
    /// What was asked for is done.
    Done,
    NoSuchFlow,
    NotWaiting,
    NotThere,
    BadValue,
    NoSuchAddon,
    UnknownCommand,
    BadNumber,
    LineTooLong,
    /// The run ends.
    Bye,
}

/// Appends the line of an answer. After `NoMemory` nothing was appended.
pub fn answer_line(answer: OperatorAnswer, out: &mut Vec<u8>) -> Result<(), NoMemory>
    ensures ok { OnOk result (out.new.items ≡ out.old.items ++ answer_text answer) }
    ensures err { OnErr result (out.new.items ≡ out.old.items) }
{
    let mut line = Vec::new(*out.allocator());
    push_words(answer, &mut line)?;
    line.push(b'\n')?;
    out.extend_from_slice(&line)?;
    Ok(())
}

fn push_words(answer: OperatorAnswer, line: &mut Vec<u8>) -> Result<(), NoMemory>
    ensures { OnOk result (line.new.items ≡ line.old.items ++ answer_words answer) }
{
    match answer {
        OperatorAnswer::Waiting(id) => push_state(id, b" waiting", line)?,
        OperatorAnswer::Going(id) => push_state(id, b" going", line)?,
        OperatorAnswer::End => line.extend_from_slice(b"end")?,
        OperatorAnswer::Done => line.extend_from_slice(b"ok")?,
        OperatorAnswer::NoSuchFlow => line.extend_from_slice(b"no such flow")?,
        OperatorAnswer::NotWaiting => line.extend_from_slice(b"not waiting")?,
        OperatorAnswer::NotThere => line.extend_from_slice(b"not there")?,
        OperatorAnswer::BadValue => line.extend_from_slice(b"bad value")?,
        OperatorAnswer::NoSuchAddon => line.extend_from_slice(b"no such addon")?,
        OperatorAnswer::UnknownCommand => line.extend_from_slice(b"unknown command")?,
        OperatorAnswer::BadNumber => line.extend_from_slice(b"bad number")?,
        OperatorAnswer::LineTooLong => line.extend_from_slice(b"line too long")?,
        OperatorAnswer::Bye => line.extend_from_slice(b"bye")?,
    }
    Ok(())
}

fn push_state(id: FlowId, state: &[u8], line: &mut Vec<u8>) -> Result<(), NoMemory>
    ensures { OnOk result (line.new.items ≡ line.old.items ++ (id_text id ++ state.now)) }
{
    push_id(id, line)?;
    line.extend_from_slice(state)?;
    Ok(())
}
