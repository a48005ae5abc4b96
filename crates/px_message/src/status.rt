//! Status codes.
ghost use Rattle.std.specs.Prelude.{◌≡◌, true, false, MatchOption};
ghost use Rattle.px_message.specs.Status.{is_status};

use std::marker::Model;

/// A response's status code: 101, or 200 to 999 (RFC 9110 section 15). Interim responses but 101 are no messages of a
/// flow.
#[derive(Clone, Copy, Debug, PartialEq, Eq)]
pub struct Status {
    code: u16,
}

impl Model for Status {
    ghost use Rattle.std.specs.Prelude.{◌≡◌, ℕ, true};
    ghost use Rattle.px_message.specs.Status.{is_status};

    ghost Value = { ℕ };

    ghost view = { λ s. s.code };

    ghost invariant = { λ s. is_status s.code ≡ true };

    ghost inverse = { λ n. record { code = n } };
}

impl Status {
    /// The status of this number; none exactly where it is neither 101 nor 200 to 999.
    pub fn try_new(code: u16) -> Option<Status>
        ensures { MatchOption result (is_status code ≡ false) (λ status. (status ≡ code) × (is_status code ≡ true)) }
    {
        if code == 101 || (200..=999).contains(&code) {
            Some(Status { code })
        } else {
            None
        }
    }

    /// The number.
    pub fn code(&self) -> u16
        ensures code { result ≡ self.now }
        ensures valid { is_status self.now ≡ true }
    {
        self.code
    }
}
