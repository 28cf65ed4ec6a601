//! What an observer hears of a session's links.
use crate::heard::Notice;
use crate::messages::{
    BEGIN, BEGUN, COMMIT, COMMITTED, IDLE, LOGIN, OPEN, PROCESS, QUERY, ROW, SERVES_ONE, STARTUP,
    Script, TERMINATE,
};
use crate::observers::{Case, FAILURE, assert_cases};
use crate::talk::Turn;
use startup::ErrorCode;
use std::test::Fail;

// A session without a link.
const LOST: Notice = Notice::SessionEnded(Some(ErrorCode::ConnectionFailure), None);

// A client whose link isn't opened, since its server answers the login so.
macro_rules! unopened {
    ($answer:expr; $($notice:expr),*) => {
        Case {
            script: Script {
                client: &[
                    Turn::Gives(STARTUP),
                    Turn::TakesLength(103),
                    Turn::Gives(QUERY),
                    Turn::TakesError(FAILURE),
                ],
                server: &[Turn::Takes(STARTUP), Turn::Gives($answer)],
            },
            is_gone: false,
            notices: &[Notice::LoggedIn(0, 0), $($notice,)* LOST],
        }
    };
}

// Servers that refuse the login by 53300, ask for a password, or leave within a message.
const UNOPENED: [Case; 3] = [
    unopened![
        b"E\0\0\0\x19SFATAL\0C53300\0Mfull\0\0";
        Notice::LinkRefusalBegun, Notice::LinkRefused(0, Some(*b"53300"))
    ],
    unopened![b"R\0\0\0\x08\0\0\0\x03"; Notice::LinkRefused(0, None)],
    unopened![b"R\0\0\0"; ],
];

// No server can be connected to.
const UNCONNECTED: [Case; 1] = [Case {
    script: Script {
        client: &[
            Turn::Gives(STARTUP),
            Turn::TakesLength(103),
            Turn::Gives(QUERY),
            Turn::TakesError(FAILURE),
        ],
        server: &[],
    },
    is_gone: false,
    notices: &[Notice::LoggedIn(0, 0), LOST],
}];

// A client that has two transactions, and leaves; and one that left while its link was opened.
const ASKS: [Case; 2] = [
    Case {
        script: Script {
            client: &[
                Turn::Gives(STARTUP),
                Turn::TakesLength(103),
                Turn::Gives(BEGIN),
                Turn::Takes(BEGUN),
                Turn::Takes(OPEN),
                Turn::Gives(COMMIT),
                Turn::Takes(COMMITTED),
                Turn::Takes(IDLE),
                Turn::Gives(QUERY),
                Turn::Takes(ROW),
                Turn::Takes(IDLE),
                Turn::Gives(TERMINATE),
            ],
            server: &[
                Turn::Takes(STARTUP),
                Turn::Gives(LOGIN),
                Turn::Takes(BEGIN),
                Turn::Gives(BEGUN),
                Turn::Gives(OPEN),
                Turn::Takes(COMMIT),
                Turn::Gives(COMMITTED),
                Turn::Gives(IDLE),
                Turn::Takes(QUERY),
                Turn::Gives(ROW),
                Turn::Gives(IDLE),
            ],
        },
        is_gone: false,
        notices: &[
            Notice::LoggedIn(0, 0),
            Notice::LinkOpened(PROCESS),
            Notice::LinkGiven,
            Notice::LinkReturned,
            Notice::LinkGiven,
            Notice::LinkReturned,
            Notice::SessionEnded(None, None),
        ],
    },
    Case {
        script: Script {
            client: &[
                Turn::Gives(STARTUP),
                Turn::TakesLength(103),
                Turn::Gives(QUERY),
            ],
            server: SERVES_ONE,
        },
        is_gone: true,
        notices: &[
            Notice::LoggedIn(0, 0),
            Notice::LinkOpened(PROCESS),
            Notice::SessionEnded(None, None),
        ],
    },
];

#[test]
fn links(rt: HostRuntime) -> Result<(), Fail> {
    assert_cases(&rt, rt.alloc(), &UNOPENED)?;
    assert_cases(&rt, rt.alloc(), &UNCONNECTED)?;
    assert_cases(&rt, rt.alloc(), &ASKS)
}
