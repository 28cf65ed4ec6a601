//! Secrets against published key streams, and connections in turn.
use node_threads::{Front, Secrets};
use pg_ids::{PeerNo, Secret};
use std::process::Abort;
use std::test::Fail;

// The first words of the key stream of ChaCha20 for a key of zeros, little-endian: those of stream
// 0 are the test vectors 1 and 2 of RFC 8439, A.1, and those of stream 1 are of
// draft-agl-tls-chacha20poly1305, 7, with the nonce 0100000000000000.
const FIRST: [u32; 32] = [
    0xade0_b876,
    0x903d_f1a0,
    0xe56a_5d40,
    0x28bd_8653,
    0xb819_d2bd,
    0x1aed_8da0,
    0xccef_36a8,
    0xc70d_778b,
    0x7c59_41da,
    0x8d48_5751,
    0x3fe0_2477,
    0x374a_d8b8,
    0xf4b8_436a,
    0x1ca1_1815,
    0x69b6_87c3,
    0x8665_eeb2,
    0xbee7_079f,
    0x7a38_5155,
    0x7c97_ba98,
    0x0d08_2d73,
    0xa029_0fcb,
    0x6965_e348,
    0x3e53_c612,
    0xed7a_ee32,
    0x7621_b729,
    0x434e_e69c,
    0xb033_71d5,
    0xd539_d874,
    0x281f_ed31,
    0x45fb_0a51,
    0x1f0a_e1ac,
    0x6f4d_794b,
];

const SECOND: [u32; 8] = [
    0xd6df_3fef,
    0xfb78_15c6,
    0xbd35_cff5,
    0x803b_d33d,
    0x3416_6309,
    0xac42_1ed2,
    0xd10b_9633,
    0x320d_e538,
];

// The secrets of a node, for a seed of zeros, begin with these words.
fn assert_draws(rt: &impl Abort, peer: u16, words: &[u32]) -> Result<(), Fail> {
    let mut secrets = Secrets::new([0; 32], PeerNo::new(peer).ok_or("no such peer")?);
    for word in words {
        assert_eq!(rt; secrets.draw(), Secret(*word));
    }
    Ok(())
}

#[test]
fn published_words(rt: HostRuntime) -> Result<(), Fail> {
    assert_draws(&rt, 0, &FIRST)?;
    assert_draws(&rt, 1, &SECOND)
}

#[test]
fn connections_in_turn(rt: HostRuntime) {
    let mut front = Front::new(3);
    for node in &[0, 1, 2, 0, 1, 2, 0] {
        assert_eq!(rt; front.deal(), *node);
    }
    let mut alone = Front::new(1);
    for node in &[0, 0, 0] {
        assert_eq!(rt; alone.deal(), *node);
    }
}
