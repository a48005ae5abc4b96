//! Laws of settling, each the contract of a function that does nothing.
ghost use Rattle.px_message.specs.Settle as law;

/// A settled request is whole: its own head tells its body's length.
pub fn settled_request_is_whole()
    ensures { law.SettledRequestIsWhole }
{}

/// A settled response is whole.
pub fn settled_response_is_whole()
    ensures { law.SettledResponseIsWhole }
{}

/// A whole request, as it was read, is not changed.
pub fn whole_request_stays()
    ensures { law.WholeRequestStays }
{}

/// A whole response, as it was read, is not changed.
pub fn whole_response_stays()
    ensures { law.WholeResponseStays }
{}

/// Settling a request twice is settling it once.
pub fn request_settles_once()
    ensures { law.RequestSettlesOnce }
{}

/// Settling a response twice is settling it once.
pub fn response_settles_once()
    ensures { law.ResponseSettlesOnce }
{}

/// A message whose body passes by has the framing fields that were read.
pub fn streamed_is_framed_as_read()
    ensures { law.StreamedIsFramedAsRead }
{}

/// It stays as it is where it has them.
pub fn streamed_stays()
    ensures { law.StreamedStays }
{}

/// Settling it twice is settling it once.
pub fn streamed_settles_once()
    ensures { law.StreamedSettlesOnce }
{}
