//! The times of an entry, in milliseconds.
ghost use Rattle.std.specs.Prelude.{◌≡◌, ◌≤◌};
ghost use Rattle.px_har.specs.Entry.{millis_between, receive_millis, send_millis, timings_value, total_millis, wait_millis};
ghost use Rattle.px_har.specs.Puts.{Puts};
ghost use Rattle.px_har.specs.Read.{HasTimes};

use crate::values::put_count_member;
use json::Writer;
use px_message::Times;
use px_text::NoMemory;

/// How long the parts of a flow took together.
pub(crate) fn total_millis(times: Times) -> u64
    ensures value { result ≡ total_millis times }
    ensures small { result ≤ 55340232221128653 }
{
    let sending = send_millis(times);
    let waiting = wait_millis(times);
    sending + waiting + receive_millis(times)
}

/// `receive`, `send` and `wait`.
pub(crate) fn put_timings(writer: &mut Writer, times: Times) -> Result<(), NoMemory>
    ensures { Puts result writer.old writer.new (timings_value times) }
{
    let receive = receive_millis(times);
    let send = send_millis(times);
    let wait = wait_millis(times);
    writer.begin_object()?;
    put_count_member(writer, "receive", receive)?;
    put_count_member(writer, "send", send)?;
    put_count_member(writer, "wait", wait)?;
    writer.end_object()?;
    Ok(())
}

fn send_millis(times: Times) -> u64
    ensures value { result ≡ send_millis times }
    ensures small { result ≤ 18446744073709551 }
{
    millis_between(Some(times.request_start), times.request_end)
}

fn wait_millis(times: Times) -> u64
    ensures value { result ≡ wait_millis times }
    ensures small { result ≤ 18446744073709551 }
{
    millis_between(times.request_end, times.response_start)
}

fn receive_millis(times: Times) -> u64
    ensures value { result ≡ receive_millis times }
    ensures small { result ≤ 18446744073709551 }
{
    millis_between(times.response_start, times.response_end)
}

// From the one moment to the other, rounded down; 0 where one is missing, or the second is the earlier one.
fn millis_between(start: Option<u64>, end: Option<u64>) -> u64
    ensures value { result ≡ millis_between start end }
    ensures small { result ≤ 18446744073709551 }
{
    let Some(start) = start else {
        return 0;
    };
    let Some(end) = end else {
        return 0;
    };
    end.saturating_sub(start) / 1000
}

/// That the times fit 64 bits. It only looks at them.
pub(crate) fn has_times(times: Times)
    ensures { HasTimes times }
{
    let _receive = receive_millis(times);
    let _send = send_millis(times);
    let _wait = wait_millis(times);
    let _total = total_millis(times);
}
