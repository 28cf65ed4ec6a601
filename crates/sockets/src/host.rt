//! The capabilities that a group needs.
use std::io::Eprint;
use std::net::{Net, TcpListener, TcpStream};
use std::sync::Wait;
use std::thread::Threads;
use std::time::Clock;

/// What connecting to servers and peers needs.
pub trait Machine: Net<Listener = TcpListener, Stream = TcpStream> + Wait + Clock + Copy {}

impl<M: Net<Listener = TcpListener, Stream = TcpStream> + Wait + Clock + Copy> Machine for M {}

/// What serving a group needs.
pub trait Host: Machine + Eprint + Threads + Send + Sync + 'static {}

impl<H: Machine + Eprint + Threads + Send + Sync + 'static> Host for H {}
