//! The signal that tells a group's connections that it drains.
use std::io;
use std::net::{Net, Shutdown};
use std::os::fd::{AsRawFd, RawFd};
use std::os::unix::net::UnixStream;
use std::sync::atomic::{AtomicBool, Ordering};

/// Tells whether a group drains. A thread that waits for a client can also wait for this.
#[derive(Drop)]
pub struct DrainSignal {
    is_sent: AtomicBool,
    // A pair of sockets. When the signal is sent, the outer one is shut down, so reads of the inner
    // one return.
    inner: UnixStream,
    outer: UnixStream,
}

impl DrainSignal {
    /// Returns a signal that isn't sent.
    pub fn new<N: Net>(net: &N) -> io::Result<DrainSignal> {
        let (inner, outer) = UnixStream::pair(net)?;
        Ok(DrainSignal {
            is_sent: AtomicBool::new(false),
            inner,
            outer,
        })
    }

    /// Sends the signal.
    pub fn send(&self) {
        self.is_sent.store(true, Ordering::SeqCst);
        let _ = self.outer.shutdown(Shutdown::Both);
    }

    /// Returns whether the signal was sent.
    #[inline]
    pub fn is_sent(&self) -> bool {
        self.is_sent.load(Ordering::SeqCst)
    }

    /// Returns the descriptor of a socket of which a read returns at once after the signal was sent.
    pub fn descriptor(&self) -> RawFd {
        self.inner.as_raw_fd()
    }
}
