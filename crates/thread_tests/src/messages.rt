//! Messages by the PostgreSQL manual's "Message Formats", and whole conversations of them.
use crate::talk::Turn;

// AuthenticationOk and three ParameterStatus, which each login begins with.
pub(crate) const WELCOME: &[u8] = b"R\0\0\0\x08\0\0\0\0\
    S\0\0\0\x16server_version\x0016\0\
    S\0\0\0\x19server_encoding\0UTF8\0\
    S\0\0\0\x19client_encoding\0UTF8\0";

// ReadyForQuery, outside of a transaction and in one.
pub(crate) const IDLE: &[u8] = b"Z\0\0\0\x05I";

pub(crate) const OPEN: &[u8] = b"Z\0\0\0\x05T";

// BackendKeyData of peer 2, three hops: slot 1 with secret 5, and secret 9 with the slots 0 to 2. A
// key is the peer in 14 bits, the slot in 16, the secret in 32 and the hops in 2.
const KEY_OF_HELD: &[u8] = b"K\0\0\0\x0c\0\x08\0\x04\0\0\0\x17";

const KEY_AT_0: &[u8] = b"K\0\0\0\x0c\0\x08\0\0\0\0\0\x27";

const KEY_AT_1: &[u8] = b"K\0\0\0\x0c\0\x08\0\x04\0\0\0\x27";

const KEY_AT_2: &[u8] = b"K\0\0\0\x0c\0\x08\0\x08\0\0\0\x27";

// The query `select 1`, and its answer: RowDescription, DataRow and CommandComplete.
pub(crate) const QUERY: &[u8] = b"Q\0\0\0\x0dselect 1\0";

pub(crate) const ROW: &[u8] =
    b"T\0\0\0\x21\0\x01?column?\0\0\0\0\0\0\0\0\0\0\x17\0\x04\xff\xff\xff\xff\0\0\
    D\0\0\0\x0b\0\x01\0\0\0\x011\
    C\0\0\0\x0dSELECT 1\0";

pub(crate) const BEGIN: &[u8] = b"Q\0\0\0\x0abegin\0";

pub(crate) const BEGUN: &[u8] = b"C\0\0\0\x0aBEGIN\0";

pub(crate) const COMMIT: &[u8] = b"Q\0\0\0\x0bcommit\0";

pub(crate) const COMMITTED: &[u8] = b"C\0\0\0\x0bCOMMIT\0";

pub(crate) const TERMINATE: &[u8] = b"X\0\0\0\x04";

// The error fields of a node that was started anew, up to the text for a person.
const RESTARTED: &[u8] = b"SFATAL\0VFATAL\0C57P01\0";

// What a server is sent to log in, and its answer.
pub(crate) const STARTUP: &[u8] = b"\0\0\0\x23\0\x03\0\0user\0plain\0database\0plain\0\0";

pub(crate) const LOGIN: &[u8] = b"R\0\0\0\x08\0\0\0\0\
    K\0\0\0\x0c\x21\x22\x23\x24\x25\x26\x27\x28\
    Z\0\0\0\x05I";

// The number of the server's process in it.
pub(crate) const PROCESS: u32 = 0x2122_2324;

// CancelRequest with the key of the owner's link, and with that of peer 3, secret 1, and two hops.
const CANCEL: &[u8] = b"\0\0\0\x10\x04\xd2\x16\x2e\x11\x12\x13\x14\x15\x16\x17\x18";

pub(crate) const LOWERED: &[u8] = b"\0\0\0\x10\x04\xd2\x16\x2e\0\x0c\0\0\0\0\0\x06";

// A client that does this first, gets this key, asks once and leaves.
macro_rules! asks {
    ($($first:expr)?; $key:expr) => {
        &[
            $($first,)?
            $crate::talk::Turn::Takes($crate::messages::WELCOME),
            $key,
            $crate::talk::Turn::Takes($crate::messages::IDLE),
            $crate::talk::Turn::Gives($crate::messages::QUERY),
            $crate::talk::Turn::Takes($crate::messages::ROW),
            $crate::talk::Turn::Takes($crate::messages::IDLE),
            $crate::talk::Turn::Gives($crate::messages::TERMINATE),
        ]
    };
}

pub(crate) use asks;

// A server that takes this login, and answers one query.
macro_rules! serves {
    ($login:expr) => {
        &[
            $crate::talk::Turn::Takes($login),
            $crate::talk::Turn::Gives($crate::messages::LOGIN),
            $crate::talk::Turn::Takes($crate::messages::QUERY),
            $crate::talk::Turn::Gives($crate::messages::ROW),
            $crate::talk::Turn::Gives($crate::messages::IDLE),
        ]
    };
}

pub(crate) use serves;

// What a connection's client does, and what its server or peer does.
#[derive(Clone, Copy, Debug)]
pub(crate) struct Script {
    pub(crate) client: &'static [Turn],
    pub(crate) server: &'static [Turn],
}

// A server that serves one query.
pub(crate) const SERVES_ONE: &[Turn] = serves![STARTUP];

// A client at slot 1 that is served.
pub(crate) const SERVED_AT_1: Script = Script {
    client: asks![; Turn::Takes(KEY_AT_1)],
    server: SERVES_ONE,
};

// The same at slot 2.
pub(crate) const SERVED_AT_2: Script = Script {
    client: asks![; Turn::Takes(KEY_AT_2)],
    server: SERVES_ONE,
};

// A client at slot 0. Its server serves another query after the client's.
pub(crate) const SERVED_AT_0: Script = Script {
    client: asks![; Turn::Takes(KEY_AT_0)],
    server: &[
        Turn::Takes(STARTUP),
        Turn::Gives(LOGIN),
        Turn::Takes(QUERY),
        Turn::Gives(ROW),
        Turn::Gives(IDLE),
        Turn::Takes(QUERY),
        Turn::Gives(ROW),
        Turn::Gives(IDLE),
    ],
};

// The client that is held, and is served.
pub(crate) const HELD: Script = Script {
    client: asks![; Turn::Takes(KEY_OF_HELD)],
    server: SERVES_ONE,
};

// It gets the whole answer to its request, and for its next one the error of a node that was
// started anew.
pub(crate) const OUTLIVES: Script = Script {
    client: &[
        Turn::Takes(WELCOME),
        Turn::Takes(KEY_OF_HELD),
        Turn::Takes(IDLE),
        Turn::Gives(QUERY),
        Turn::Takes(ROW),
        Turn::Takes(IDLE),
        Turn::Gives(QUERY),
        Turn::TakesError(RESTARTED),
    ],
    server: SERVES_ONE,
};

// It goes on over its link to the end of its transaction.
pub(crate) const OUTLIVES_IN_TRANSACTION: Script = Script {
    client: &[
        Turn::Takes(WELCOME),
        Turn::Takes(KEY_OF_HELD),
        Turn::Takes(IDLE),
        Turn::Gives(BEGIN),
        Turn::Takes(BEGUN),
        Turn::Takes(OPEN),
        Turn::Gives(QUERY),
        Turn::Takes(ROW),
        Turn::Takes(OPEN),
        Turn::Gives(COMMIT),
        Turn::Takes(COMMITTED),
        Turn::Takes(IDLE),
        Turn::Gives(QUERY),
        Turn::TakesError(RESTARTED),
    ],
    server: &[
        Turn::Takes(STARTUP),
        Turn::Gives(LOGIN),
        Turn::Takes(BEGIN),
        Turn::Gives(BEGUN),
        Turn::Gives(OPEN),
        Turn::Takes(QUERY),
        Turn::Gives(ROW),
        Turn::Gives(OPEN),
        Turn::Takes(COMMIT),
        Turn::Gives(COMMITTED),
        Turn::Gives(IDLE),
    ],
};

// It waits for a link, and gets none.
pub(crate) const WAITS: Script = Script {
    client: &[
        Turn::Takes(WELCOME),
        Turn::Takes(KEY_OF_HELD),
        Turn::Takes(IDLE),
        Turn::Gives(QUERY),
        Turn::TakesError(RESTARTED),
    ],
    server: &[],
};

// A cancel request for the owner's link that ends cleanly: nothing is written to its client.
pub(crate) const CANCELS: Script = Script {
    client: &[],
    server: &[Turn::Takes(CANCEL)],
};

// One whose connection gives a byte back, so that it may still be acted on: its client gets the
// byte E.
pub(crate) const CANCELS_IN_VAIN: Script = Script {
    client: &[Turn::Takes(b"E")],
    server: &[Turn::Takes(CANCEL), Turn::Gives(b"N")],
};

// One whose connection takes the request and then can't be read.
pub(crate) const CANCELS_BROKEN: Script = Script {
    client: &[Turn::Takes(b"E")],
    server: &[Turn::Takes(CANCEL), Turn::Breaks],
};

// One that peer 3 gets.
pub(crate) const FORWARDS: Script = Script {
    client: &[],
    server: &[Turn::Takes(LOWERED)],
};
