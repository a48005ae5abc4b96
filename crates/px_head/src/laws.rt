//! Laws of what stands at the front of bytes, each the contract of a function that does nothing.
//!
//! They tie the definition to the grammar (a head is found exactly where the grammar reads one), say exactly where it is waited
//! for or too long, so that all else is refused, and what may be relied on of a head that was found, whatever bytes follow.
ghost use Rattle.px_head.specs.Laws as law;

/// A request that the grammar reads is found with its parts, the empty lines before it skipped, whatever follows.
pub fn request_is_found()
    ensures { law.RequestIsFound }
{}

/// A response that the grammar reads is found with its parts, the empty lines before it skipped, whatever follows.
pub fn response_is_found()
    ensures { law.ResponseIsFound }
{}

/// Trailers that the grammar reads are found with their fields, whatever follows.
pub fn trailers_are_found()
    ensures { law.TrailersAreFound }
{}

/// A request that was found is one that the grammar reads: the bytes that it used are that head, its empty lines in front.
pub fn found_request_is_read()
    ensures { law.FoundRequestIsRead }
{}

/// A response that was found is one that the grammar reads: the bytes that it used are that head, its empty lines in front.
pub fn found_response_is_read()
    ensures { law.FoundResponseIsRead }
{}

/// Trailers that were found are ones that the grammar reads: the bytes that they used are those trailers.
pub fn found_trailers_are_read()
    ensures { law.FoundTrailersAreRead }
{}

/// What is decided at the front stays decided, whatever bytes follow.
pub fn front_stays()
    ensures { law.FrontStays }
{}

/// A head uses at least one byte, no byte that is not there, and none past the limit.
pub fn used_is_within()
    ensures { law.UsedIsWithin }
{}

/// A search that goes on looks at the bytes that came since the last one, and at two before them: so a head in pieces costs its
/// bytes and two for each piece.
pub fn search_goes_on()
    ensures { law.SearchGoesOn }
{}

/// More bytes are waited for exactly where fewer than 65,536 are there, and no block ends in them.
pub fn waiting_is_exact()
    ensures { law.WaitingIsExact }
{}

/// A head is too long exactly where 65,536 bytes or more are there, and no block ends within the first 65,536.
pub fn too_long_is_exact()
    ensures { law.TooLongIsExact }
{}

/// A request's method and names are tokens, its target is UTF-8 without blanks and control bytes, its values have
/// value bytes only and no blank at either end, and its fields are at most 100.
pub fn request_parts_are_valid()
    ensures { law.RequestPartsAreValid }
{}

/// A response's code is 100 to 999 in three digits, its names are tokens, its reason and values have value bytes only, its
/// values no blank at either end, and its fields are at most 100.
pub fn response_parts_are_valid()
    ensures { law.ResponsePartsAreValid }
{}

/// Trailers have fields alone, at most 100; their names are tokens, their values have value bytes only and no blank at either
/// end.
pub fn trailer_parts_are_valid()
    ensures { law.TrailerPartsAreValid }
{}
