//! Histograms, and counts of sessions' ends.
use crate::{END_KINDS, ENDS, Ends, Histogram};
use std::test::Fail;
use std::time::Duration;

// 1 millisecond is in the first bucket, and 1.001 in the second; 1 second is in that of up to 1
// second, the tenth, and 61 seconds are in the last.
#[test]
fn times_have_their_buckets(rt: HostRuntime) -> Result<(), Fail> {
    let histogram = Histogram::new(rt.alloc())?;
    for micros in [1_000, 1_001, 1_000_000, 61_000_000] {
        histogram.add(Duration::from_micros(micros));
    }
    let times = histogram.times();
    let expected = [1, 1, 0, 0, 0, 0, 0, 0, 0, 1, 0, 0, 0, 0, 0, 1];
    assert_eq!(&rt; times.buckets, expected);
    assert_eq!(&rt; times.micros, 62_002_001);
    Ok(())
}

// Ends, and the places of their kinds. One that isn't among the kinds is counted as another.
const PLACES: [(Option<&str>, Option<&str>, usize); 6] = [
    (None, None, 0),
    (Some("0A000"), Some("named_statement"), 1),
    (Some("08P01"), Some("unknown_type"), 9),
    (Some("08006"), None, 14),
    (Some("57P01"), None, 17),
    (Some("XX000"), Some("copy"), 18),
];

#[test]
fn ends_have_their_kinds(rt: HostRuntime) -> Result<(), Fail> {
    for (code, refused, place) in PLACES {
        let ends = Ends::new(rt.alloc())?;
        ends.add(code, refused);
        let mut expected = [0; ENDS];
        expected[place] = 1;
        assert_eq!(&rt; ends.counts(), expected);
    }
    Ok(())
}

// The kinds differ.
#[test]
fn kinds_differ(rt: HostRuntime) {
    for (place, kind) in END_KINDS.iter().enumerate() {
        let first = END_KINDS.iter().position(|other| other == kind);
        assert_eq!(&rt; first, Some(place));
    }
}
