//! The operators, by the letters behind `~`.
ghost use Rattle.std.specs.Prelude.{◌≡◌};
ghost use Rattle.px_filter.specs.Operators as specs;

/// What is so of a flow, or not, without a pattern.
#[derive(Debug, Clone, Copy, PartialEq, Eq)]
pub enum Fact {
    /// `~all` and `~http`.
    Always,
    /// `~a`: the response is an asset of a page.
    Asset,
    /// `~e`
    Error,
    /// `~marked`
    Marked,
    /// `~q`: there is no response.
    NoResponse,
    /// `~s`
    Response,
    /// `~replay`, from either end.
    Replayed,
    /// `~replayq`
    ReplayedRequest,
    /// `~replays`
    ReplayedResponse,
    /// `~websocket`
    Websocket,
}

/// Where a pattern is looked for.
#[derive(Debug, Clone, Copy, PartialEq, Eq)]
pub enum Part {
    /// `~b`: in the bodies and the message.
    Body,
    /// `~bq`: in the request's body and a client's message.
    RequestBody,
    /// `~bs`: in the response's body and a server's message.
    ResponseBody,
    /// `~d`
    Host,
    /// `~dst`
    Server,
    /// `~h`
    Header,
    /// `~hq`
    RequestHeader,
    /// `~hs`
    ResponseHeader,
    /// `~m`
    Method,
    /// `~src`
    Client,
    /// `~t`
    Type,
    /// `~tq`
    RequestType,
    /// `~ts`
    ResponseType,
    /// `~u`, and a word by itself.
    Url,
}

/// An operator that has an argument.
#[derive(Debug, Clone, Copy, PartialEq, Eq)]
pub enum Argued {
    /// `~c`: one to three digits follow.
    Code,
    /// A pattern follows.
    Part(Part),
}

/// An operator.
#[derive(Debug, Clone, Copy, PartialEq, Eq)]
pub enum Operator {
    Alone(Fact),
    Argued(Argued),
}

/// The operator of these letters; none where no operator has them.
pub fn operator_of(letters: &[u8]) -> Option<Operator>
    ensures { result ≡ specs.operator_of letters.now }
{
    match fact_of(letters) {
        Some(fact) => Some(Operator::Alone(fact)),
        None => with_argument(letters),
    }
}

fn with_argument(letters: &[u8]) -> Option<Operator>
    ensures { result ≡ specs.with_argument letters.now }
{
    if letters == b"c".as_slice() {
        return Some(Operator::Argued(Argued::Code));
    }
    match part_of(letters) {
        Some(part) => Some(Operator::Argued(Argued::Part(part))),
        None => None,
    }
}

fn fact_of(letters: &[u8]) -> Option<Fact>
    ensures { result ≡ specs.fact_of letters.now }
{
    if letters == b"all".as_slice() {
        Some(Fact::Always)
    } else if letters == b"http".as_slice() {
        Some(Fact::Always)
    } else if letters == b"a".as_slice() {
        Some(Fact::Asset)
    } else if letters == b"e".as_slice() {
        Some(Fact::Error)
    } else if letters == b"marked".as_slice() {
        Some(Fact::Marked)
    } else if letters == b"q".as_slice() {
        Some(Fact::NoResponse)
    } else if letters == b"s".as_slice() {
        Some(Fact::Response)
    } else if letters == b"replay".as_slice() {
        Some(Fact::Replayed)
    } else if letters == b"replayq".as_slice() {
        Some(Fact::ReplayedRequest)
    } else if letters == b"replays".as_slice() {
        Some(Fact::ReplayedResponse)
    } else if letters == b"websocket".as_slice() {
        Some(Fact::Websocket)
    } else {
        None
    }
}

fn part_of(letters: &[u8]) -> Option<Part>
    ensures { result ≡ specs.part_of letters.now }
{
    if letters == b"b".as_slice() {
        Some(Part::Body)
    } else if letters == b"bq".as_slice() {
        Some(Part::RequestBody)
    } else if letters == b"bs".as_slice() {
        Some(Part::ResponseBody)
    } else if letters == b"d".as_slice() {
        Some(Part::Host)
    } else if letters == b"dst".as_slice() {
        Some(Part::Server)
    } else if letters == b"h".as_slice() {
        Some(Part::Header)
    } else if letters == b"hq".as_slice() {
        Some(Part::RequestHeader)
    } else if letters == b"hs".as_slice() {
        Some(Part::ResponseHeader)
    } else if letters == b"m".as_slice() {
        Some(Part::Method)
    } else if letters == b"src".as_slice() {
        Some(Part::Client)
    } else if letters == b"t".as_slice() {
        Some(Part::Type)
    } else if letters == b"tq".as_slice() {
        Some(Part::RequestType)
    } else if letters == b"ts".as_slice() {
        Some(Part::ResponseType)
    } else if letters == b"u".as_slice() {
        Some(Part::Url)
    } else {
        None
    }
}
