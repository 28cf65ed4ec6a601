//! Which lines the log has, by their level, and how many of dropped parameters.
use crate::tests::log_lines::{expect_line, expect_no_line};
use crate::{Event, KINDS, Level, Log};
use std::test::Fail;
use std::thread;
use std::time::Duration;

// Each time a warning, a notice and an info.
const EVENTS: [[Event; 3]; 2] = [
    [Event::LinkLost, Event::LinkClosed, Event::CancelRefused],
    [
        Event::SessionEnded,
        Event::CancelEnded,
        Event::CancelRefused,
    ],
];

#[test]
fn a_log_has_lines_of_its_level(rt: HostRuntime) {
    for (least, expected) in [
        (Level::Warn, [true, false, false]),
        (Level::Notice, [true, true, false]),
        (Level::Info, [true, true, true]),
    ] {
        for events in EVENTS {
            let log = Log::new(rt.alloc(), least);
            for (event, is_written) in events.into_iter().zip(expected) {
                log.write(&rt, None, event, &[]);
                assert_eq!(&rt; log.next(&rt).is_some(), is_written);
            }
        }
    }
}

// Of three lines one is written in a second, and then how many were left out.
#[test]
fn dropped_parameters_are_told_once_a_second(rt: HostRuntime) -> Result<(), Fail> {
    let log = Log::new(rt.alloc(), Level::Notice);
    for _ in 0..3 {
        log.write(&rt, Some(1), Event::ParametersDropped, &[]);
    }
    expect_line(&rt, &log, "node=1 notice parameters_dropped")?;
    expect_no_line(&rt, &log)?;
    thread::sleep(&rt, Duration::from_millis(1_100));
    let line = "node=- notice lines_left_out of=parameters_dropped count=2";
    expect_line(&rt, &log, line)?;
    expect_no_line(&rt, &log)
}

// The kinds have different places, each below their number, and different names, or different levels
// of one name.
#[test]
fn kinds_have_their_places(rt: HostRuntime) {
    for (place, event) in KINDS.into_iter().enumerate() {
        assert_eq!(&rt; event.place(), place);
        for other in KINDS {
            let is_alike = event.name() == other.name() && event.level() == other.level();
            assert_eq!(&rt; is_alike, event == other);
        }
    }
}
