//! The head of a frame (RFC 6455 section 5.2), and its faults in their order.
ghost use Rattle.std.specs.Prelude.{◌≡◌, ◌≤◌, ◌<◌, ◌^◌, length, None, Some};
ghost use Rattle.px_frame.specs.Head as spec;
ghost use Rattle.px_frame.specs.HeadFits.{Fits};

use crate::fault::FrameFault;

/// The head of a frame: FIN, the opcode, the length of the payload in bytes, the key of a masked frame, and how many bytes the head has.
#[derive(Clone, Copy, Debug, PartialEq, Eq)]
pub struct FrameHead {
    pub fin: bool,
    pub opcode: u8,
    pub length: u64,
    pub key: Option<[u8; 4]>,
    pub size: usize,
}

/// What stands at the front of bytes.
#[derive(Clone, Copy, Debug, PartialEq, Eq)]
pub enum HeadStep {
    /// The bytes begin a head, and nothing is wrong so far.
    More,
    /// A head.
    Head(FrameHead),
    /// The first fault of a head.
    Fault(FrameFault),
}

/// The most bytes of a message.
pub(crate) const MOST: u64 = 16_777_216;

/// The head at the front of the bytes, or the first fault of one, as soon as its byte is there.
///
/// `masked` says whether frames are to be masked, as those of a client are; `begun` is the payload so far, in bytes, of a message that
/// has begun; `last` says that no message may be completed any more.
pub fn read_head(bytes: &[u8], masked: bool, begun: Option<u64>, last: bool) -> HeadStep
    ensures step { result ≡ spec.head_of masked begun last bytes.now }
    ensures fits { Fits begun (length bytes.now) result }
{
    read_first(bytes, masked, begun, last)
}

// Byte 0 and what follows.
fn read_first(bytes: &[u8], masked: bool, begun: Option<u64>, last: bool) -> HeadStep
    ensures { result ≡ spec.head_of masked begun last bytes.now }
{
    match bytes {
        [] => HeadStep::More,
        [first, rest @ ..] => match first_fault(*first, begun) {
            Some(fault) => HeadStep::Fault(fault),
            None => read_second(rest, *first, masked, begun, last),
        },
    }
}

// Behind byte 0: byte 1 and what follows.
fn read_second(bytes: &[u8], first: u8, masked: bool, begun: Option<u64>, last: bool) -> HeadStep
    ensures { result ≡ spec.second_step masked begun last first bytes.now }
{
    match bytes {
        [] => HeadStep::More,
        [second, rest @ ..] => match second_fault(first, *second, masked) {
            Some(fault) => HeadStep::Fault(fault),
            None => read_length(rest, first, *second % 128, masked, begun, last),
        },
    }
}

// Behind byte 1: the length and what follows.
fn read_length(
    bytes: &[u8],
    first: u8,
    seven: u8,
    masked: bool,
    begun: Option<u64>,
    last: bool,
) -> HeadStep
    ensures { result ≡ spec.length_step masked begun last first seven bytes.now }
{
    let width = length_bytes(seven);
    if bytes.len() < width {
        return HeadStep::More;
    }
    let stated = stated_length(seven, bytes);
    match length_fault(first, seven, stated, begun, last) {
        Some(fault) => HeadStep::Fault(fault),
        None => read_key(&bytes[width..], first, stated, 2 + width, masked),
    }
}

// Behind the length: the key.
fn read_key(bytes: &[u8], first: u8, stated: u64, size: usize, masked: bool) -> HeadStep
    requires { size ≤ 10 }
    ensures { result ≡ spec.key_step masked first stated size bytes.now }
{
    if !masked {
        return head(first, stated, None, size);
    }
    match bytes {
        [a, b, c, d, ..] => head(first, stated, Some([*a, *b, *c, *d]), size + 4),
        _ => HeadStep::More,
    }
}

fn head(first: u8, stated: u64, key: Option<[u8; 4]>, size: usize) -> HeadStep
    ensures { result ≡ spec.head_step first stated key size }
{
    HeadStep::Head(FrameHead {
        fin: first >= 128,
        opcode: first % 16,
        length: stated,
        key,
        size,
    })
}

fn first_fault(first: u8, begun: Option<u64>) -> Option<FrameFault>
    ensures { result ≡ spec.first_fault begun first }
{
    if first / 16 % 8 > 0 {
        return Some(FrameFault::Reserved);
    }
    let opcode = first % 16;
    if !is_opcode(opcode) {
        return Some(FrameFault::BadOpcode);
    }
    if !is_control(opcode) {
        return data_fault(opcode, begun);
    }
    if first < 128 {
        return Some(FrameFault::SplitControl);
    }
    None
}

fn data_fault(opcode: u8, begun: Option<u64>) -> Option<FrameFault>
    ensures { result ≡ spec.data_fault begun opcode }
{
    match begun {
        None => {
            if opcode == 0 {
                Some(FrameFault::LoneContinuation)
            } else {
                None
            }
        }
        Some(_) => {
            if opcode == 0 {
                None
            } else {
                Some(FrameFault::NestedMessage)
            }
        }
    }
}

fn is_opcode(opcode: u8) -> bool
    ensures { result ≡ spec.is_opcode opcode }
{
    opcode <= 2 || (8 <= opcode && opcode <= 10)
}

/// Whether the opcode is that of a control frame (section 5.5).
pub(crate) fn is_control(opcode: u8) -> bool
    ensures { result ≡ spec.is_control opcode }
{
    opcode >= 8
}

fn second_fault(first: u8, second: u8, masked: bool) -> Option<FrameFault>
    ensures { result ≡ spec.second_fault masked first second }
{
    if masked != (second >= 128) {
        return Some(FrameFault::WrongMask);
    }
    if is_control(first % 16) && second % 128 > 125 {
        return Some(FrameFault::LongControl);
    }
    None
}

// How many bytes behind byte 1 state the length.
fn length_bytes(seven: u8) -> usize
    ensures value { result ≡ spec.length_bytes seven }
    ensures few { result ≤ 8 }
{
    match seven {
        126 => 2,
        127 => 8,
        _ => 0,
    }
}

fn stated_length(seven: u8, bytes: &[u8]) -> u64
    requires { spec.length_bytes seven ≤ length bytes.now }
    ensures { result ≡ spec.stated_length seven bytes.now }
{
    if seven == 126 {
        return u64::from(u16::from_be_bytes([bytes[0], bytes[1]]));
    }
    if seven == 127 {
        return u64::from_be_bytes([
            bytes[0], bytes[1], bytes[2], bytes[3], bytes[4], bytes[5], bytes[6], bytes[7],
        ]);
    }
    u64::from(seven)
}

fn length_fault(
    first: u8,
    seven: u8,
    stated: u64,
    begun: Option<u64>,
    last: bool,
) -> Option<FrameFault>
    ensures { result ≡ spec.length_fault begun last first seven stated }
{
    if stated < least_stated(seven) {
        return Some(FrameFault::NotShortest);
    }
    if stated >= 1 << 63 {
        return Some(FrameFault::HighBit);
    }
    if !is_control(first % 16) && is_too_big(begun, last, stated) {
        return Some(FrameFault::TooBig);
    }
    None
}

// The least length that is stated in this form.
fn least_stated(seven: u8) -> u64
    ensures { result ≡ spec.least_stated seven }
{
    match seven {
        126 => 126,
        127 => 65_536,
        _ => 0,
    }
}

fn is_too_big(begun: Option<u64>, last: bool, stated: u64) -> bool
    ensures { result ≡ spec.is_too_big begun last stated }
{
    let so_far = begun.unwrap_or(0);
    last || stated > MOST || so_far > MOST - stated
}

/// Whether the length of the frame at the front was heard whole.
pub(crate) fn has_length(bytes: &[u8]) -> bool
    ensures { result ≡ spec.has_length bytes.now }
{
    match bytes {
        [_, second, rest @ ..] => rest.len() >= length_bytes(*second % 128),
        _ => false,
    }
}
