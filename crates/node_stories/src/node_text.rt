//! The settings file of a node that a story gives by some words.
use std::alloc::{AllocError, Global};

// The lines that each file has to have.
const REQUIRED: &str = "[pgbouncer]\npool_mode=transaction\nauth_type=trust\nlisten_addr=a\n";

const DATABASE: &str = "[databases]\nshop=host=127.0.0.1 port=7100 user=app\n[peers]\n";

/// The settings file of a node with this number, a pool of this size for its one database, this
/// many slots, and these peers.
pub(crate) fn node_text(
    alloc: Global,
    number: &str,
    pool: &str,
    clients: &str,
    peers: &[&str],
) -> Result<String, AllocError> {
    let mut text = String::from_str(alloc, REQUIRED)?;
    write!(&mut text, "peer_id={number}\ndefault_pool_size={pool}\n")?;
    write!(&mut text, "max_client_conn={clients}\n{DATABASE}")?;
    for peer in peers {
        write!(&mut text, "{peer}=host=a port=1\n")?;
    }
    Ok(text)
}
