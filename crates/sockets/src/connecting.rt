//! Connects to servers and peers.
use crate::{Deadline, Machine};
use std::io;
use std::io::ErrorKind;
use std::net::{TcpStream, ToSocketAddrs};

/// Connects to a host by the deadline. Tries its addresses in turn, each with an equal share of the
/// time that is left. Looking up the name has only the system's time limit.
pub fn connect<M: Machine>(
    machine: &M,
    host: &str,
    port: u16,
    deadline: Deadline,
) -> io::Result<TcpStream> {
    let addresses = (host, port).to_socket_addrs(machine)?;
    let mut others = addresses.len() as u32;
    let mut last = io::Error::from(ErrorKind::NotFound);
    for address in addresses {
        let time = deadline.left(machine)? / others.max(1);
        match TcpStream::connect_timeout(machine, &address, time) {
            Ok(socket) => return Ok(socket),
            Err(error) => last = error,
        }
        others = others.saturating_sub(1);
    }
    Err(last)
}
