//! Frames as they are sent: those to the server under keys (RFC 6455 section 5.3).
ghost use Rattle.std.specs.Prelude.{◌≡◌, ◌≤◌, ◌++◌, ◌∷◌, [], OnOk, IfOk, length};
ghost use Rattle.rand_chacha.specs.ChaCha.{key_of};
ghost use Rattle.px_frame.specs.Text.{MayWrite, frame_text};
ghost use Rattle.px_relay.specs.Calls.{IsWritable, both_closed, key_by, keys_behind, keys_behind_all, said_to, sent_by, text_by, with_keys};
ghost use Rattle.px_relay.specs.Messages as spec;
ghost use Rattle.px_relay.specs.Sending.{close_frame};

use crate::gathered::Gathered;
use crate::lengths::Lengths;
use crate::peer::Peer;
use px_event::Command;
use px_frame::{Frame, write_frame};
use px_text::{Bytes, NoMemory};
use rand_chacha::ChaCha20Rng;
use rand_core::SeedableRng;
use rand_core::utils::NextWord;
use std::alloc::Global;
use std::cmp;

/// The most bytes of a frame of a message whose length was changed.
const MOST_IN_FRAME: usize = 4000;

/// What sends frames to the peers: the number of the server, and the keys of the frames to it.
#[derive(Drop)]
pub(crate) struct Sender {
    pub(crate) server: u32,
    pub(crate) keys: ChaCha20Rng,
}

impl Sender {
    /// One that has sent nothing. The keys are words of ChaCha20 with this key, in the stream of the conversation's number.
    pub(crate) fn new(server: u32, mask_key: [u8; 32], conv: u32) -> Sender
        ensures { result ≡ record { server = server; keys = record { key = key_of mask_key; stream = conv; word_pos = 0 } } }
    {
        let mut keys = ChaCha20Rng::from_seed(mask_key);
        keys.set_stream(u64::from(conv));
        Sender { server, keys }
    }

    /// Sends one frame.
    pub(crate) fn send(
        &mut self,
        to: Peer,
        frame: &Frame,
        out: &mut Vec<Command>,
    ) -> Result<(), NoMemory>
        requires may { IsWritable frame.now }
        ensures sender { OnOk result (self.new ≡ with_keys self.old (keys_behind_all to self.old.keys (frame.now ∷ []))) }
        ensures gives { OnOk result (out.new.items ≡ out.old.items ++ sent_by self.old to (frame.now ∷ [])) }
    {
        let mut text = Vec::new(*out.allocator());
        self.push(
            to,
            frame.fin,
            frame.opcode,
            frame.payload.as_slice(),
            &mut text,
        )?;
        self.say(to, text, out)
    }

    /// Sends a Close frame with this payload to the other peer, and then to this one.
    pub(crate) fn close_both(
        &mut self,
        from: Peer,
        payload: &[u8],
        out: &mut Vec<Command>,
    ) -> Result<(), NoMemory>
        requires short { length payload.now ≤ 125 }
        ensures server { OnOk result (self.new.server ≡ self.old.server) }
        ensures gives { OnOk result (out.new.items ≡ out.old.items ++ both_closed self.old from payload.now) }
    {
        self.close(from.other(), payload, out)?;
        self.close(from, payload, out)
    }

    /// Sends a message with this payload.
    pub(crate) fn send_message(
        &mut self,
        to: Peer,
        message: &Gathered,
        payload: &[u8],
        out: &mut Vec<Command>,
    ) -> Result<(), NoMemory>
        ensures sender { OnOk result (self.new ≡ with_keys self.old (keys_behind_all to self.old.keys (spec.message_frames message.now payload.now))) }
        ensures gives { OnOk result (out.new.items ≡ out.old.items ++ sent_by self.old to (spec.message_frames message.now payload.now)) }
    {
        let alloc = *out.allocator();
        let mut text = Vec::new(alloc);
        if payload.len() == message.payload.len() {
            self.push_fragments(to, message.text, &message.lengths, payload, &mut text)?;
        } else {
            let lengths = cut_lengths(alloc, payload.len())?;
            self.push_fragments(to, message.text, &lengths, payload, &mut text)?;
        }
        self.say(to, text, out)
    }

    fn close(&mut self, to: Peer, payload: &[u8], out: &mut Vec<Command>) -> Result<(), NoMemory>
        requires short { length payload.now ≤ 125 }
        ensures sender { OnOk result (self.new ≡ with_keys self.old (keys_behind to self.old.keys)) }
        ensures gives { OnOk result (out.new.items ≡ out.old.items ++ sent_by self.old to (close_frame payload.now ∷ [])) }
    {
        let mut text = Vec::new(*out.allocator());
        self.push(to, true, 8, payload, &mut text)?;
        self.say(to, text, out)
    }

    // Says a text to a peer.
    fn say(&self, to: Peer, text: Vec<u8>, out: &mut Vec<Command>) -> Result<(), NoMemory>
        ensures { OnOk result (out.new.items ≡ out.old.items ++ said_to self.now to text.items) }
    {
        out.push(Command::Send {
            side: to.side(self.server),
            bytes: Bytes::new(text)?,
        })?;
        Ok(())
    }

    // Adds the text of a frame, under the next key where it goes to the server.
    fn push(
        &mut self,
        to: Peer,
        fin: bool,
        opcode: u8,
        payload: &[u8],
        text: &mut Vec<u8>,
    ) -> Result<(), NoMemory>
        requires may { MayWrite fin opcode (length payload.now) }
        ensures sender { self.new ≡ with_keys self.old (keys_behind to self.old.keys) }
        ensures text { OnOk result (text.new.items ≡ text.old.items ++ frame_text fin opcode (key_by to self.old.keys) payload.now) }
    {
        let key = self.next_key(to);
        write_frame(fin, opcode, key, payload, text)
    }

    fn next_key(&mut self, to: Peer) -> Option<[u8; 4]>
        ensures value { result ≡ key_by to self.old.keys }
        ensures sender { self.new ≡ with_keys self.old (keys_behind to self.old.keys) }
    {
        match to {
            Peer::Client => None,
            Peer::Server => Some(self.keys.next_word().to_le_bytes()),
        }
    }

    // Adds the text of a message's frames of these lengths.
    fn push_fragments(
        &mut self,
        to: Peer,
        is_text: bool,
        lengths: &Lengths,
        payload: &[u8],
        text: &mut Vec<u8>,
    ) -> Result<(), NoMemory>
        ensures sender { OnOk result (self.new ≡ with_keys self.old (keys_behind_all to self.old.keys (spec.fragments (spec.opcode_of is_text) lengths.now payload.now))) }
        ensures text { OnOk result (text.new.items ≡ text.old.items ++ text_by to self.old.keys (spec.fragments (spec.opcode_of is_text) lengths.now payload.now)) }
    {
        let mut walk = lengths.walk();
        let mut next = walk.next();
        let mut rest = payload;
        let mut opcode = if is_text { 1 } else { 2 };
        'counts: while let Some(count) = next {
            next = walk.next();
            let at = cmp::min(count, rest.len());
            self.push(to, next.is_none(), opcode, &rest[..at], text)?;
            opcode = 0;
            rest = &rest[at..];
        }
        Ok(())
    }
}

// The lengths of the frames of a payload of another length.
fn cut_lengths(alloc: Global, count: usize) -> Result<Lengths, NoMemory>
    ensures { IfOk result (λ lengths. lengths ≡ spec.cut_lengths count) }
{
    if count <= MOST_IN_FRAME {
        return Ok(Lengths::new(alloc, count));
    }
    let mut lengths = Lengths::new(alloc, MOST_IN_FRAME);
    let mut left = count - MOST_IN_FRAME;
    'cuts: while left > MOST_IN_FRAME {
        lengths.push(MOST_IN_FRAME)?;
        left -= MOST_IN_FRAME;
    }
    lengths.push(left)?;
    Ok(lengths)
}
