//! URLs of requests.
//!
//! A request goes to its own host and port, whatever its `Host` field says. Its URL is those and the path: `http://`,
//! the host, a colon and the port unless that is 80, and the path. A change of the URL sets the three and nothing else.
//! A URL that was written so is read back as the same host, port and path. The asterisk form alone has no path to write:
//! the URL of `OPTIONS *` is that of the server, and names the path `/` where it is read.
ghost use Rattle.std.specs.Prelude.{◌≡◌, ◌++◌, Some, None, Err, IfOk, OnOk, OnErr};
ghost use Rattle.px_message.specs.Target.{absolute_form};
ghost use Rattle.px_message.specs.Url.{port_suffix, url_path, url_text, ChangesUrlOnly, WrittenUrlIsRead};

use crate::target::read_absolute;
use crate::{Address, Request, TargetError};
use itoa::Buffer;
use px_text::NoMemory;
use std::alloc::Global;

/// Why a URL was refused.
#[derive(Clone, Copy, Debug, PartialEq, Eq)]
pub enum UrlError {
    /// It is no URL of the scheme `http` with a host, a port from 1 to 65,535 and a path.
    NotPlainHttp,
    /// Memory ran out; it says nothing of the URL.
    NoMemory,
}

impl Request {
    /// The URL: `http://`, the host, a colon and the port unless that is 80, and the path. The path `*` is left out.
    pub fn url(&self) -> Result<Vec<u8>, NoMemory>
        ensures { IfOk result (λ url. url.items ≡ url_text self.now.host self.now.port self.now.path) }
    {
        let mut url = Vec::from_slice(self.fields.allocator(), b"http://")?;
        url.extend_from_slice(self.host.bytes())?;
        append_port(&mut url, self.port)?;
        append_path(&mut url, self.path.bytes())?;
        Ok(url)
    }

    /// Sets host, port and path to those of a URL of the scheme `http`, in any letter case; without a port it is 80, and
    /// without a path `/`. `NotPlainHttp` exactly where the text is no such URL, as a target in absolute form
    /// (RFC 9112 section 3.2.2). After either refusal the request is unchanged.
    pub fn set_url(&mut self, url: &[u8]) -> Result<(), UrlError>
        ensures ok { OnOk result (ChangesUrlOnly self.old self.new
            × (absolute_form url.now ≡ Some (self.new.host, self.new.port, self.new.path))) }
        ensures refused { result ≡ Err UrlError.NotPlainHttp → absolute_form url.now ≡ None }
        ensures err { OnErr result (self.new ≡ self.old) }
    {
        match read_absolute(self.fields.allocator(), url) {
            Ok((address, path)) => {
                let Address { host, port } = address;
                self.host = host;
                self.port = port;
                self.path = path;
                Ok(())
            }
            Err(TargetError::BadTarget) => Err(UrlError::NotPlainHttp),
            Err(TargetError::NoMemory) => Err(UrlError::NoMemory),
        }
    }
}

fn append_port(url: &mut Vec<u8>, port: u16) -> Result<(), NoMemory>
    ensures { OnOk result (url.new.items ≡ url.old.items ++ port_suffix port) }
{
    if port != 80 {
        url.push(b':')?;
        url.extend_from_slice(Buffer::new().format(port).as_bytes())?;
    }
    Ok(())
}

fn append_path(url: &mut Vec<u8>, path: &[u8]) -> Result<(), NoMemory>
    ensures { OnOk result (url.new.items ≡ url.old.items ++ url_path path.now) }
{
    if path != b"*".as_slice() {
        url.extend_from_slice(path)?;
    }
    Ok(())
}

/// A law: what `url` writes of a request whose path is not `*`, `set_url` reads as the same host, port and path.
pub fn written_url_is_read()
    ensures { WrittenUrlIsRead }
{}
