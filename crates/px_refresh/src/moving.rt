//! Refreshed responses.
ghost use Rattle.std.specs.Prelude.{◌≡◌, [], map, pos, option_map, option_and_then, ◌+ℤ◌, IfOk, OnOk, OnErr};
ghost use Rattle.httpdate.specs.Date.{parse_secs, unix_secs};
ghost use Rattle.px_refresh.specs.Date.{date_of};
ghost use Rattle.px_refresh.specs.Refresh.{in_years, is_dated, refreshed, refreshed_field, shift_to};

use httpdate::HttpDate;
use px_message::{Fields, Name, Response, Value};
use px_text::{NoMemory, eq_ignore_case};
use std::alloc::Global;

/// By how many seconds the dates of a recorded response are moved: from the recorded moment to the end of the request that is asked about, or to
/// 1970 where that is not known, each in microseconds since 1970 and rounded down to seconds.
pub fn shift_to(asked: Option<u64>, recorded: u64) -> i64
    ensures { result ≡ shift_to asked recorded }
{
    let asked = asked.unwrap_or(0) / 1_000_000;
    asked as i64 - (recorded / 1_000_000) as i64
}

/// Moves the dates of a recorded response by so many seconds, so that it looks as if it had been made when it is sent (mitmproxy's option
/// `server_replay_refresh`). Each value of `Date`, `Expires` and `Last-Modified` that is a date to `httpdate` (RFC 9110 section 5.6.7, each of
/// its three formats) becomes the IMF-fixdate of its second and the shift; it stays where that is in no year from 1970 to 9999. Nothing
/// else changes. After `NoMemory` the response is as before.
pub fn refresh(alloc: Global, response: &mut Response, shift: i64) -> Result<(), NoMemory>
    ensures refreshed { OnOk result (response.new ≡ refreshed response.old shift) }
    ensures unchanged { OnErr result (response.new ≡ response.old) }
{
    response.fields = refreshed(alloc, &response.fields, shift)?;
    Ok(())
}

// The fields with their dates moved.
fn refreshed(alloc: Global, fields: &Fields, shift: i64) -> Result<Fields, NoMemory>
    ensures { IfOk result (λ made. made ≡ map (refreshed_field shift) fields.now) }
{
    let mut made = Fields::new(alloc);
    for i in 0..fields.len() {
        let (name, value) = fields.pair(i);
        made.add(
            name.try_clone()?,
            refreshed_value(alloc, name, value, shift)?,
        )?;
    }
    Ok(made)
}

// The value of a field, moved if it has a date.
fn refreshed_value(alloc: Global, name: &Name, value: &Value, shift: i64) -> Result<Value, NoMemory>
    ensures { IfOk result (λ made. (name.now, made) ≡ refreshed_field shift (name.now, value.now)) }
{
    if !is_dated(name.bytes()) {
        return value.try_clone();
    }
    match moved(value.bytes(), shift) {
        Some(date) => written(alloc, date),
        None => value.try_clone(),
    }
}

// Whether the field of this name has a date that is moved.
fn is_dated(name: &[u8]) -> bool
    ensures { result ≡ is_dated (name.now, []) }
{
    eq_ignore_case(name, b"Date")
        || eq_ignore_case(name, b"Expires")
        || eq_ignore_case(name, b"Last-Modified")
}

// The moved date, where the text is one of a date and the moved date lies in the years 1970 to 9999.
fn moved(text: &[u8], shift: i64) -> Option<HttpDate>
    ensures { option_map unix_secs result ≡ option_and_then (λ second. in_years (pos second +ℤ shift)) (parse_secs text.now) }
{
    let Ok(date) = HttpDate::parse_ascii(text) else {
        return None;
    };
    let second = date.unix_secs().checked_add_signed(shift)?;
    HttpDate::from_unix_secs(second).ok()
}

// The date as a value.
fn written(alloc: Global, date: HttpDate) -> Result<Value, NoMemory>
    ensures { IfOk result (λ value. value ≡ date_of (unix_secs date)) }
{
    Value::of_text(alloc, &date.to_bytes())
}
