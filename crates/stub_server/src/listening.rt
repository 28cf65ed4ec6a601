//! The connections that a listener accepts.
use crate::{Server, serve_connection};
use std::alloc::{AllocError, Global};
use std::net::{TcpListener, TcpStream};
use std::sync::{Arc, Wait};
use std::thread;
use std::thread::Threads;
use std::time::{Clock, Duration};

// How many milliseconds accepting rests after a fault, which would come again at once if no
// descriptor is left.
const REST: u64 = 10;

/// Serves each connection that the listener accepts, in a thread of its own. A connection for which
/// no thread or no memory is left is closed. Errors of `accept` are ignored.
pub fn serve<R: Wait + Threads + Clock + Copy + Send + 'static>(
    rt: &R,
    server: &Arc<Server, Global>,
    listener: &TcpListener,
) {
    for stream in listener.incoming() {
        match stream {
            Ok(stream) => {
                let _ = start(rt, server, stream);
            }
            Err(_) => thread::sleep(rt, Duration::from_millis(REST)),
        }
    }
}

// Starts the thread of a connection.
fn start<R: Wait + Threads + Copy + Send + 'static>(
    rt: &R,
    server: &Arc<Server, Global>,
    mut stream: TcpStream,
) -> Result<(), AllocError> {
    let own = *rt;
    let server = Arc::try_clone(server)?;
    // However it ends, the connection is closed then.
    thread::spawn(rt, move || {
        let _ = serve_connection(&own, &server, &mut stream);
    })?;
    Ok(())
}
