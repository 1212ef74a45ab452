//! Connections to endpoints.
use std::io;
use std::net::{Net, TcpStream, ToSocketAddrs};
use std::time::Duration;

/// How long a socket waits for its peer, in seconds.
const PATIENCE: u64 = 10;

/// What connects to a host. It has no associated type, so that threads can share it.
pub trait Connect {
    /// A connection to a port of a host, whose reads and writes wait 10 seconds for its peer at most.
    fn connect(&self, host: &str, port: u16) -> io::Result<TcpStream>;
}

impl<R: Net<Stream = TcpStream>> Connect for R {
    /// A connection to the first address of the host that answers within 10 seconds.
    fn connect(&self, host: &str, port: u16) -> io::Result<TcpStream> {
        let patience = Duration::from_secs(PATIENCE);
        let mut last = io::Error::from(io::ErrorKind::AddrNotAvailable);
        for address in (host, port).to_socket_addrs(self)? {
            match TcpStream::connect_timeout(self, &address, patience) {
                Ok(stream) => return patient(stream, patience),
                Err(error) => last = error,
            }
        }
        Err(last)
    }
}

/// A connection whose reads and writes wait so long at most.
fn patient(stream: TcpStream, patience: Duration) -> io::Result<TcpStream> {
    stream.set_read_timeout(Some(patience))?;
    stream.set_write_timeout(Some(patience))?;
    stream.set_nodelay(true)?;
    Ok(stream)
}
