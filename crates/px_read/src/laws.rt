//! Laws of what stands at the front of a stream, each the contract of a function that does nothing.
//!
//! What is told stays told, whatever bytes follow and whether the server closes behind them. So a reader may forget what
//! it gave, and who looks again over more bytes finds the same.
ghost use Rattle.px_read.specs.Laws as law;
ghost use Rattle.px_read.specs.Requests as requests;
ghost use Rattle.px_read.specs.Whole as whole;
ghost use Rattle.px_read.specs.ReaderLaws as reader;

/// No bytes are no request.
pub fn no_bytes_are_no_request()
    ensures { law.NoBytesAreNoRequest }
{}

/// No bytes are no response, interim or final.
pub fn no_bytes_are_no_answers()
    ensures { law.NoBytesAreNoAnswers }
{}

/// A request's head that stands is the same whatever follows.
pub fn request_head_stays()
    ensures { law.RequestHeadStays }
{}

/// A request that is whole or refused is the same whatever follows.
pub fn request_stays()
    ensures { law.RequestStays }
{}

/// What is told of a request only grows.
pub fn request_grows()
    ensures { law.RequestGrows }
{}

/// A whole request uses at least one byte, and none that is not there.
pub fn request_used_is_within()
    ensures { law.RequestUsedIsWithin }
{}

/// A CONNECT is whole as soon as its head is there: it has no content, whatever its fields say of a length.
pub fn connect_is_whole()
    ensures { law.ConnectIsWhole }
{}

/// A CONNECT uses the bytes of its head alone.
pub fn connect_ends_with_its_head()
    ensures { law.ConnectEndsWithItsHead }
{}

/// A response's head that stands is the same whatever follows, a close too.
pub fn response_head_stays()
    ensures { law.ResponseHeadStays }
{}

/// A response that is whole or refused is the same whatever follows, a close too.
pub fn response_stays()
    ensures { law.ResponseStays }
{}

/// What is told of a response only grows.
pub fn response_grows()
    ensures { law.ResponseGrows }
{}

/// A whole response uses at least one byte, and none that is not there.
pub fn response_used_is_within()
    ensures { law.ResponseUsedIsWithin }
{}

/// A list of answers looks for as many interim responses as there can be.
pub fn most_is_enough()
    ensures { law.MostIsEnough }
{}

/// Interim responses are only added.
pub fn interim_grow()
    ensures { law.InterimGrow }
{}

/// No interim response is added once the final one has begun.
pub fn interim_stay()
    ensures { law.InterimStay }
{}

/// The final response's head that stands is the same whatever follows, a close too.
pub fn final_head_stays()
    ensures { law.FinalHeadStays }
{}

/// A final response that is whole or refused is the same whatever follows, a close too.
pub fn final_stays()
    ensures { law.FinalStays }
{}

/// The interim responses use no byte that is not there.
pub fn interim_used_is_within()
    ensures { law.InterimUsedIsWithin }
{}

/// A whole final response uses at least one byte of those behind the interim ones, and none that is not there.
pub fn final_used_is_within()
    ensures { law.FinalUsedIsWithin }
{}

/// What a reader told and what it has to come are what the bytes that it was fed tell, however they were cut.
pub fn told_is_read()
    ensures { reader.ToldIsRead }
{}

/// Behind `End` the message is whole with what was told, and the reader's rest is what it did not use.
pub fn end_is_whole()
    ensures { reader.EndIsWhole }
{}

/// Behind `Bad` the message is refused with what was told.
pub fn bad_is_refused()
    ensures { reader.BadIsRefused }
{}

/// `More` is given exactly where nothing is told and the message goes on, `End` where it is whole, `Bad` where it is refused.
pub fn next_is_exact()
    ensures { reader.NextIsExact }
{}

/// Behind the head of a CONNECT the reader has nothing to tell, and the message is whole.
pub fn connect_has_ended()
    ensures { reader.ConnectHasEnded }
{}

/// Behind the head of a CONNECT the reader gives `End`, and its rest is then what the head did not use.
pub fn connect_is_read()
    ensures { reader.ConnectIsRead }
{}

/// Each number of requests that is no less than that of the bytes is as good.
pub fn most_requests_are_enough()
    ensures { requests.MostRequestsAreEnough }
{}

/// The whole requests of a stream, one behind the other, are only added to.
pub fn whole_requests_grow()
    ensures { requests.WholeRequestsGrow }
{}

/// The whole requests of a stream use no byte that is not there.
pub fn whole_requests_are_within()
    ensures { requests.WholeRequestsAreWithin }
{}

/// What stands behind the whole requests of a stream is what the bytes that they did not use are, and it is not whole.
pub fn last_is_left()
    ensures { requests.LastIsLeft }
{}

/// A CONNECT is the last request of a stream, and nothing is said of what stands behind it.
pub fn connect_is_last()
    ensures { requests.ConnectIsLast }
{}

/// Nothing is said of what stands behind the whole requests of a stream only where the last of them is a CONNECT.
pub fn list_ends_by_connect()
    ensures { requests.ListEndsByConnect }
{}

/// Behind a CONNECT, or before a refused request, the requests of a stream are the same whatever follows.
pub fn ended_list_stays()
    ensures { requests.EndedListStays }
{}

/// The content and the trailers of a whole request are those of a body of the length that its head gives.
pub fn whole_request_fits()
    ensures { whole.WholeRequestFits }
{}

/// The content and the trailers of a whole response are those of a body of the length that its head gives.
pub fn whole_response_fits()
    ensures { whole.WholeResponseFits }
{}

/// The target of a whole request is UTF-8 without blanks and control bytes; its fields and its trailers are at most 100 each, with
/// values that have no blank at either end and no control byte but the tab.
pub fn whole_request_is_valid()
    ensures { whole.WholeRequestIsValid }
{}

/// The reason of a whole response has no control byte but the tab; its fields and its trailers are as those of a request.
pub fn whole_response_is_valid()
    ensures { whole.WholeResponseIsValid }
{}

/// The final response is the one at the front of the bytes behind the interim ones.
pub fn final_is_behind_interim()
    ensures { whole.FinalIsBehindInterim }
{}

/// A request that was read is whole: its own head tells its body's length.
pub fn read_request_is_whole()
    ensures { whole.ReadRequestIsWhole }
{}

/// Settling changes nothing of a request that was read.
pub fn read_request_stays()
    ensures { whole.ReadRequestStays }
{}

/// A response that was read is whole: its own head tells its body's length.
pub fn read_response_is_whole()
    ensures { whole.ReadResponseIsWhole }
{}

/// Settling changes nothing of a response that was read.
pub fn read_response_stays()
    ensures { whole.ReadResponseStays }
{}

/// What is fed to the reader of a request behind its client's close is more of what it has to come.
pub fn fed_behind_close()
    ensures { reader.FedBehindClose }
{}
