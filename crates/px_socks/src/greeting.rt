//! A client's greeting (RFC 1928 section 3).
ghost use Rattle.std.specs.Prelude.{◌≡◌, ◌==◌, ◌≤◌, false};
ghost use Rattle.std.specs.List.{list_any};
ghost use Rattle.px_socks.specs.Greeting as spec;

/// What bytes of a client are as a greeting.
#[derive(Clone, Copy, Debug, PartialEq, Eq)]
pub enum Greeting {
    /// The bytes begin a greeting, and more of it is to come.
    More,
    /// A greeting. `free`: 00, no authentication, is among its methods; `used`: how many bytes it has.
    Methods { free: bool, used: usize },
    /// The first byte is no version 5.
    NotSocks,
}

/// What the bytes are as a greeting, whatever follows it.
pub fn read_greeting(bytes: &[u8]) -> Greeting
    ensures { result ≡ spec.greeting_of bytes.now }
{
    match bytes {
        [] => Greeting::More,
        [version, rest @ ..] => {
            if *version == 5 {
                read_count(rest)
            } else {
                Greeting::NotSocks
            }
        }
    }
}

// Behind the version: the number of methods and what follows.
fn read_count(bytes: &[u8]) -> Greeting
    ensures { result ≡ spec.count_step bytes.now }
{
    match bytes {
        [] => Greeting::More,
        [count, rest @ ..] => read_methods(rest, usize::from(*count)),
    }
}

// So many methods.
fn read_methods(bytes: &[u8], count: usize) -> Greeting
    requires { count ≤ 255 }
    ensures { result ≡ spec.methods_step count false 2 bytes.now }
{
    if bytes.len() < count {
        return Greeting::More;
    }
    Greeting::Methods {
        free: has_free(&bytes[..count]),
        used: 2 + count,
    }
}

// 00 is among the methods.
fn has_free(methods: &[u8]) -> bool
    ensures { result ≡ list_any (λ method. method == 0) methods.now }
{
    methods.iter().any(|method| *method == 0)
}
