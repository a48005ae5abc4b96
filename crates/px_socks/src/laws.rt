//! Laws of greetings and requests, each the contract of a function that does nothing.
//!
//! They say what may be relied on whatever bytes follow.
ghost use Rattle.px_socks.specs.Laws as law;

/// What is decided of a greeting stays, whatever follows.
pub fn greetings_stay()
    ensures { law.GreetingsStay }
{}

/// What is decided of a request stays, whatever follows.
pub fn requests_stay()
    ensures { law.RequestsStay }
{}

/// More of a greeting is awaited only where nothing was decided by any of the bytes in front.
pub fn greetings_wait()
    ensures { law.GreetingsWait }
{}

/// More of a request is awaited only where nothing was decided by any of the bytes in front.
pub fn requests_wait()
    ensures { law.RequestsWait }
{}

/// The bytes of a greeting are there.
pub fn greetings_are_within()
    ensures { law.GreetingsAreWithin }
{}

/// The bytes of a request are there.
pub fn requests_are_within()
    ensures { law.RequestsAreWithin }
{}
