//! First packets as a node's thread reads them.
use crate::ClientStream;
use crate::tests::host::TestHost;
use peer_forward::{Arrival, Asks, Requester};
use startup::{First, Opening, Wanted};
use std::io::{Read, Write};
use std::test::Fail;

// Reads the first packet by at most this many reads, and asks whether what it asks for is admitted.
// Returns whether it is.
pub(crate) fn arrive<R: TestHost>(
    rt: &R,
    client: &mut ClientStream<'_, R>,
    reads: usize,
) -> Result<bool, Fail> {
    let mut opening = Opening::new(rt.alloc());
    let mut text = Vec::new(rt.alloc());
    for _ in 0..reads {
        match opening.read(text.as_slice(), false) {
            Ok(First::Startup { database, .. }) => {
                return Ok(client.admits(asks_for(database.as_str())));
            }
            Ok(First::More) => match Wanted::after(text.as_slice()) {
                Wanted::Read(count) => {
                    if !read_more(client, count, &mut text)? {
                        return Ok(false);
                    }
                }
                Wanted::Look => {
                    let peeked = client.peek_once(&mut [0]);
                    return Ok(matches!(&peeked, Ok(1..)) && client.admits(Asks::Cancel));
                }
            },
            Ok(First::Ssl | First::Gss) => {
                client.write_all(b"N")?;
                text = Vec::new(rt.alloc());
            }
            Ok(_) => return Ok(false),
            Err(error) => {
                let _ = client.refuse(error);
                return Ok(false);
            }
        }
    }
    Ok(false)
}

// What a client asks for that names this database.
fn asks_for(database: &str) -> Asks {
    if database == "pgbouncer" {
        Asks::Console
    } else {
        Asks::Session
    }
}

// Reads at most this many bytes more, and returns whether some came.
fn read_more<R: TestHost>(
    client: &mut ClientStream<'_, R>,
    most: usize,
    text: &mut Vec<u8>,
) -> Result<bool, Fail> {
    let mut buffer = [0; 64];
    let room = buffer.get_mut(..most.min(64)).ok_or("no room")?;
    match client.read(room) {
        Ok(count) if count > 0 => {
            text.extend_from_slice(buffer.get(..count).unwrap_or(&[]))?;
            Ok(true)
        }
        _ => Ok(false),
    }
}
