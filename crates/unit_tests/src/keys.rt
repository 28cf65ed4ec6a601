//! The worked keys, by their bytes.
use crate::checks::{assert_bytes, assert_same};
use pg_ids::{
    AnyKey, Boot, ClientKey, DatabaseNo, Hops, Identity, Kind, LinkNo, LongPart, PeerNo, Secret,
    Serial, ServerKey, SlotNo,
};

// Keys by their parts: peer, slot, secret, hops, and the bytes that a person works out of the
// layout.
const KEYS: [(u16, u16, u32, u8, [u8; 8]); 6] = [
    (2, 0, 1, 3, [0, 8, 0, 0, 0, 0, 0, 7]),
    (16383, 65535, 4294967295, 3, [255; 8]),
    (2, 0, 1, 2, [0, 8, 0, 0, 0, 0, 0, 6]),
    (2, 1, 5, 3, [0, 8, 0, 4, 0, 0, 0, 0x17]),
    (2, 0, 9, 3, [0, 8, 0, 0, 0, 0, 0, 0x27]),
    (0, 0, 0, 0, [0; 8]),
];

#[test]
fn worked_keys(rt: HostRuntime) {
    for (peer, slot, secret, hops, bytes) in KEYS {
        let peer = PeerNo::new(peer).expect(&rt, "a peer");
        let hops = Hops::new(hops).expect(&rt, "hops");
        let key = ClientKey::new(peer, SlotNo(slot), Secret(secret), hops);
        assert_eq!(rt; key.to_bytes(), bytes);
        assert_eq!(rt; ClientKey::from_bytes(bytes), key);
        assert_eq!(rt; key.identity(), u64::from_be_bytes(bytes) / 4);
    }
}

#[test]
fn ranges(rt: HostRuntime) {
    assert!(rt; PeerNo::new(16384).is_none());
    assert!(rt; Hops::new(4).is_none());
    assert_same(&rt, SlotNo(65535).get(), 65535);
    assert_same(&rt, LinkNo(9).get(), 9);
    assert_same(&rt, DatabaseNo(63).get(), 63);
    assert_same(&rt, Secret(4294967295).get(), 4294967295);
    assert_same(
        &rt,
        ServerKey([1, 2, 3, 4, 5, 6, 7, 8]).to_bytes(),
        [1, 2, 3, 4, 5, 6, 7, 8],
    );
}

#[test]
fn lowered_keys(rt: HostRuntime) {
    let key = ClientKey::from_bytes([0, 8, 0, 0, 0, 0, 0, 7]);
    let lowered = key.lower().expect(&rt, "three hops");
    assert_same(&rt, lowered.to_bytes(), [0, 8, 0, 0, 0, 0, 0, 6]);
    assert!(rt;
        ClientKey::from_bytes([0, 8, 0, 0, 0, 0, 0, 4])
            .lower()
            .is_none()
    );
}

// Long keys: the bytes, the boot and the serial. Their first eight bytes are worked keys.
const LONG_KEYS: [([u8; 24], u64, u64); 3] = [
    (
        [
            0, 8, 0, 0, 0, 0, 0, 7, 0, 0, 0, 0, 0, 0, 0, 1, 0, 0, 0, 0, 0, 0, 2, 3,
        ],
        1,
        515,
    ),
    (
        [
            0, 8, 0, 4, 0, 0, 0, 0x17, 0, 0, 0, 1, 0, 0, 0, 0, 0, 0, 0, 0, 0, 0, 0, 0,
        ],
        4294967296,
        0,
    ),
    ([255; 24], 18446744073709551615, 18446744073709551615),
];

// A key by its first eight bytes and what is behind them.
fn first_of(bytes: &[u8; 24]) -> ClientKey {
    let mut first = [0; 8];
    first.copy_from_slice(&bytes[..8]);
    ClientKey::from_bytes(first)
}

#[test]
fn long_keys(rt: HostRuntime) {
    for (bytes, boot, serial) in &LONG_KEYS {
        let key = AnyKey::from_long_bytes(*bytes);
        let part = LongPart::new(Boot(*boot), Serial(*serial));
        assert_eq!(rt; key, AnyKey::new(first_of(bytes), Some(part)));
        assert_eq!(rt; key.to_bytes().as_slice(), bytes.as_slice());
        assert_eq!(rt; key.kind(), Kind::Long);
        assert_eq!(rt; key.short(), first_of(bytes));
        assert_eq!(rt; key.long_part(), Some(part));
        assert_eq!(rt; LongPart::from_bytes(part.to_bytes()), part);
    }
    assert_eq!(rt; Boot(9).get(), 9);
    assert_eq!(rt; Serial(515).get(), 515);
}

// The first of the long keys, by its eighth byte.
const fn long_bytes(eighth: u8) -> [u8; 24] {
    [
        0, 8, 0, 0, 0, 0, 0, eighth, 0, 0, 0, 0, 0, 0, 0, 1, 0, 0, 0, 0, 0, 0, 2, 3,
    ]
}

// Lowering changes the eighth byte alone, and leaves the identity.
#[test]
fn lowered_long_keys(rt: HostRuntime) {
    let key = AnyKey::from_long_bytes(long_bytes(7));
    let lowered = key.lower().expect(&rt, "three hops");
    assert_same(&rt, lowered, AnyKey::from_long_bytes(long_bytes(6)));
    let part = LongPart::new(Boot(1), Serial(515));
    assert_same(&rt, key.identity(), Identity::Long(0x2000000000001, part));
    assert_same(&rt, lowered.identity(), key.identity());
    assert!(rt; AnyKey::from_long_bytes(long_bytes(4)).lower().is_none());
}

#[test]
fn short_keys(rt: HostRuntime) {
    let bytes = [0, 8, 0, 4, 0, 0, 0, 0x17];
    let key = AnyKey::from_short_bytes(bytes);
    assert_same(&rt, key, AnyKey::new(ClientKey::from_bytes(bytes), None));
    assert_bytes(&rt, key.to_bytes().as_slice(), bytes.as_slice());
    assert_same(&rt, key.kind(), Kind::Short);
    assert_same(&rt, (key.peer().get(), key.slot().get()), (2, 1));
    assert!(rt; key.long_part().is_none());
    assert_same(&rt, key.identity(), Identity::Short(0x2000100000005));
    assert!(rt;
        AnyKey::from_short_bytes([0, 8, 0, 0, 0, 0, 0, 4])
            .lower()
            .is_none()
    );
}
