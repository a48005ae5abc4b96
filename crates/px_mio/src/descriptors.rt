//! How many descriptors are kept free for operators, files and servers.
ghost use Rattle.std.specs.Prelude.{◌≤◌, ◌+◌, ◌↔◌, ◌/◌, IsTrue};

use libc::types::rlimit;

// So many are kept free at least.
const FREE: u64 = 16;

/// Whether one more client may be let in where so many descriptors are used of so many that may be: a tenth of them is free, and at least
/// 16 are.
pub(crate) fn lets_in(used: u64, most: u64) -> bool
    ensures few { IsTrue result → used + 16 ≤ most }
    ensures tenth { IsTrue result → used + most / 10 ≤ most }
    ensures all { used + 16 ≤ most → used + most / 10 ≤ most → IsTrue result }
{
    is_left(used, most, FREE) && is_left(used, most, most / 10)
}

// Whether so many are left.
fn is_left(used: u64, most: u64, kept: u64) -> bool
    ensures { IsTrue result ↔ (used + kept ≤ most) }
{
    kept <= most && used <= most - kept
}

/// How many descriptors the system lets this process have (`ulimit -n`). Where it does not tell, there is no such number.
pub(crate) fn most_descriptors() -> u64 {
    let mut limit = rlimit {
        rlim_cur: 0,
        rlim_max: 0,
    };
    if libc::getrlimit(libc::RLIMIT_NOFILE, &mut limit) < 0 {
        return u64::MAX;
    }
    limit.rlim_cur
}
