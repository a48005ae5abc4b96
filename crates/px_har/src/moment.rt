//! The text of a moment.
ghost use Rattle.std.specs.Prelude.{◌≡◌, ◌++◌, ◌≤◌, ◌<◌, unsigned_abs, OnOk, OnErr};
ghost use Rattle.px_har.specs.Moment.{capped, date_after, date_text, millis_text, minutes_text, moment_text, seconds_text, time_text, two_digits, three_digits, four_digits};

use jiff_core::civil::Date;
use px_text::NoMemory;

// The last moment of the year 9999, in microseconds since 1970.
const LAST: u64 = 253_402_300_799_999_999;

/// Appends `YYYY-MM-DDTHH:MM:SS.mmmZ` (RFC 3339), the text of a moment in microseconds since 1970, rounded down to milliseconds.
/// A moment behind the year 9999 is taken as its last one. After `NoMemory` nothing was appended.
pub fn push_moment(moment: u64, out: &mut Vec<u8>) -> Result<(), NoMemory>
    ensures ok { OnOk result (out.new.items ≡ out.old.items ++ moment_text moment) }
    ensures err { OnErr result (out.new.items ≡ out.old.items) }
{
    let mut text = Vec::new(*out.allocator());
    push_millis(capped(moment) / 1000, &mut text)?;
    out.extend_from_slice(&text)?;
    Ok(())
}

fn capped(moment: u64) -> u64
    ensures value { result ≡ capped moment }
    ensures small { result ≤ 253402300799999999 }
{
    if moment > LAST {
        return LAST;
    }
    moment
}

fn push_millis(millis: u64, text: &mut Vec<u8>) -> Result<(), NoMemory>
    requires { millis ≤ 253402300799999 }
    ensures { OnOk result (text.new.items ≡ text.old.items ++ millis_text millis) }
{
    push_date((millis / 86_400_000) as u32, text)?;
    text.push(b'T')?;
    push_time(millis % 86_400_000, text)?;
    text.push(b'Z')?;
    Ok(())
}

fn push_date(days: u32, text: &mut Vec<u8>) -> Result<(), NoMemory>
    requires { days ≤ 2932896 }
    ensures { OnOk result (text.new.items ≡ text.old.items ++ date_text (date_after days)) }
{
    let (year, month, day) = date_after(days);
    push_four(u64::from(year), text)?;
    text.push(b'-')?;
    push_two(u64::from(month), text)?;
    text.push(b'-')?;
    push_two(u64::from(day), text)?;
    Ok(())
}

// Year, month and day of the date so many days after 1970-01-01.
fn date_after(days: u32) -> (u16, u8, u8)
    requires { days ≤ 2932896 }
    ensures date { result ≡ date_after days }
    ensures year { result.0 < 10000 }
    ensures month { result.1 < 100 }
    ensures day { result.2 < 100 }
{
    parts(Date::from_days_since_min(days + 4_371_587))
}

fn parts(date: Date) -> (u16, u8, u8)
    ensures parts { result ≡ (unsigned_abs date.year, date.month, date.day) }
    ensures month { result.1 < 100 }
    ensures day { result.2 < 100 }
{
    (date.year.unsigned_abs(), date.month, date.day)
}

fn push_time(millis: u64, text: &mut Vec<u8>) -> Result<(), NoMemory>
    requires { millis < 86400000 }
    ensures { OnOk result (text.new.items ≡ text.old.items ++ time_text millis) }
{
    push_two(millis / 3_600_000, text)?;
    text.push(b':')?;
    push_minutes(millis, text)
}

fn push_minutes(millis: u64, text: &mut Vec<u8>) -> Result<(), NoMemory>
    ensures { OnOk result (text.new.items ≡ text.old.items ++ minutes_text millis) }
{
    push_two(millis / 60_000 % 60, text)?;
    text.push(b':')?;
    push_seconds(millis, text)
}

fn push_seconds(millis: u64, text: &mut Vec<u8>) -> Result<(), NoMemory>
    ensures { OnOk result (text.new.items ≡ text.old.items ++ seconds_text millis) }
{
    push_two(millis / 1000 % 60, text)?;
    text.push(b'.')?;
    push_three(millis % 1000, text)
}

fn push_two(n: u64, text: &mut Vec<u8>) -> Result<(), NoMemory>
    requires { n < 100 }
    ensures { OnOk result (text.new.items ≡ text.old.items ++ two_digits n) }
{
    text.push(b'0' + (n / 10) as u8)?;
    text.push(b'0' + (n % 10) as u8)?;
    Ok(())
}

fn push_three(n: u64, text: &mut Vec<u8>) -> Result<(), NoMemory>
    requires { n < 1000 }
    ensures { OnOk result (text.new.items ≡ text.old.items ++ three_digits n) }
{
    text.push(b'0' + (n / 100) as u8)?;
    push_two(n % 100, text)
}

fn push_four(n: u64, text: &mut Vec<u8>) -> Result<(), NoMemory>
    requires { n < 10000 }
    ensures { OnOk result (text.new.items ≡ text.old.items ++ four_digits n) }
{
    push_two(n / 100, text)?;
    push_two(n % 100, text)
}
