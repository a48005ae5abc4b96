//! Targets of requests, hosts, and URLs.
ghost use Rattle.std.specs.Prelude.{codes};
ghost use Rattle.std.specs.Option.{option_map};
ghost use Rattle.px_message.specs.Host.{IsHost};
ghost use Rattle.px_message.specs.Target.{absolute_form, target_form};
ghost use Rattle.px_message.specs.Url.{url_text};
ghost use Rattle.px_examples.specs.Rows.{Hold, Tell};
ghost use Rattle.px_examples.specs.Targets.{hosts, of_connect, of_get, of_lowercase, urls};

/// Targets of GET, and of any method but CONNECT.
pub fn targets_are_read()
    ensures { Hold (target_form (codes "GET")) of_get }
{}

/// Targets of CONNECT.
pub fn targets_of_connect_are_read()
    ensures { Hold (target_form (codes "CONNECT")) of_connect }
{}

/// The name of a method has its case.
pub fn targets_of_lowercase_are_read()
    ensures { Hold (target_form (codes "connect")) of_lowercase }
{}

/// Hosts.
pub fn hosts_are_told()
    ensures { Tell IsHost hosts }
{}

/// The URL of a request to which a URL is set.
pub fn urls_are_set()
    ensures { Hold (λ text. option_map (λ a. url_text a.0 a.1 a.2) (absolute_form text)) urls }
{}
