//! Conversations of real clients with a real server (`tools/transcripts`), which a session
//! passes on unchanged.
use super::groups::assert_group;
use super::link_frames::{HeadDone, assert_head};
use super::*;

// Each request of a client, frame by frame, and the frames that the server sent then.
type Conversation = &'static [(&'static [&'static [u8]], &'static [&'static [u8]])];

const BIND: &[u8] = b"B\0\0\0\x0c\0\0\0\0\0\0\0\0";

const EXECUTE: &[u8] = b"E\0\0\0\x09\0\0\0\0\0";

const EXECUTE_FOR_A_ROW: &[u8] = b"E\0\0\0\x09\0\0\0\0\x01";

const DESCRIBE: &[u8] = b"D\0\0\0\x06P\0";

const SYNC: &[u8] = b"S\0\0\0\x04";

const PARSED: &[u8] = b"1\0\0\0\x04";

const BOUND: &[u8] = b"2\0\0\0\x04";

const IDLE: &[u8] = b"Z\0\0\0\x05I";

const FAILED: &[u8] = b"Z\0\0\0\x05E";

// psql: an error, and a transaction that fails.
const PSQL_ERROR: Conversation = &[
    (
        &[b"Q\0\0\0\x0fselect 1/0\0"],
        &[
            b"E\0\0\0ASERROR\0VERROR\0C22012\0Mdivision by zero\0Fint.c\0L869\0Rint4div\0\0",
            IDLE,
        ],
    ),
    (&[BEGIN], &[b"C\0\0\0\x0aBEGIN\0", IN_TRANSACTION]),
    (
        &[b"Q\0\0\0\x13select nothing\0"],
        &[
            b"E\0\0\0jSERROR\0VERROR\0C42703\0Mcolumn \"nothing\" does not exist\0P8\0\
            Fparse_relation.c\0L3665\0RerrorMissingColumn\0\0",
            FAILED,
        ],
    ),
    (
        &[b"Q\0\0\0\x0drollback\0"],
        &[b"C\0\0\0\x0dROLLBACK\0", IDLE],
    ),
];

// psql: a query that is cancelled.
const PSQL_CANCEL: Conversation = &[(
    &[b"Q\0\0\0\x18select pg_sleep(20)\0"],
    &[
        b"T\0\0\0!\0\x01pg_sleep\0\0\0\0\0\0\0\0\0\x08\xe6\0\x04\xff\xff\xff\xff\0\0",
        b"E\0\0\0hSERROR\0VERROR\0C57014\0Mcanceling statement due to user request\0\
        Fpostgres.c\0L3349\0RProcessInterrupts\0\0",
        IDLE,
    ],
)];

// psycopg2: a transaction.
const PSYCOPG2_TRANSACTION: Conversation = &[
    (
        &[b"Q\0\0\0\x0aBEGIN\0"],
        &[b"C\0\0\0\x0aBEGIN\0", IN_TRANSACTION],
    ),
    (
        &[b"Q\0\0\0!create temp table t (n int4)\0"],
        &[b"C\0\0\0\x11CREATE TABLE\0", IN_TRANSACTION],
    ),
    (
        &[b"Q\0\0\0\"insert into t values (1), (2)\0"],
        &[b"C\0\0\0\x0fINSERT 0 2\0", IN_TRANSACTION],
    ),
    (
        &[b"Q\0\0\0\x1fselect n from t order by n\0"],
        &[
            b"T\0\0\0\x1a\0\x01n\0\0\0@\x04\0\x01\0\0\0\x17\0\x04\xff\xff\xff\xff\0\0",
            b"D\0\0\0\x0b\0\x01\0\0\0\x011",
            b"D\0\0\0\x0b\0\x01\0\0\0\x012",
            b"C\0\0\0\x0dSELECT 2\0",
            IN_TRANSACTION,
        ],
    ),
    (
        &[b"Q\0\0\0\x0dROLLBACK\0"],
        &[b"C\0\0\0\x0dROLLBACK\0", IDLE],
    ),
];

// psycopg 3: a query with a parameter.
const PSYCOPG3_EXTENDED: Conversation = &[(
    &[
        b"P\0\0\0\"\0select $1::text || '!'\0\0\x01\0\0\0\0",
        b"B\0\0\0\x18\0\0\0\x01\0\0\0\x01\0\0\0\x04it's\0\x01\0\0",
        DESCRIBE,
        EXECUTE,
        SYNC,
    ],
    &[
        PARSED,
        BOUND,
        b"T\0\0\0!\0\x01?column?\0\0\0\0\0\0\0\0\0\0\x19\xff\xff\xff\xff\xff\xff\0\0",
        b"D\0\0\0\x0f\0\x01\0\0\0\x05it's!",
        b"C\0\0\0\x0dSELECT 1\0",
        IDLE,
    ],
)];

// pgjdbc: what it sets after its login, and a query with a parameter.
const PGJDBC_EXTENDED: Conversation = &[
    (
        &[
            b"P\0\0\0\"\0SET extra_float_digits = 3\0\0\0",
            BIND,
            EXECUTE_FOR_A_ROW,
            SYNC,
        ],
        &[PARSED, BOUND, b"C\0\0\0\x08SET\0", IDLE],
    ),
    (
        &[
            b"P\0\0\x007\0SET application_name = 'PostgreSQL JDBC Driver'\0\0\0",
            BIND,
            EXECUTE_FOR_A_ROW,
            SYNC,
        ],
        &[
            PARSED,
            BOUND,
            b"C\0\0\0\x08SET\0",
            b"S\0\0\0,application_name\0PostgreSQL JDBC Driver\0",
            IDLE,
        ],
    ),
    (
        &[
            b"P\0\0\0\x1f\0select $1::int4 + 1\0\0\x01\0\0\0\x17",
            b"B\0\0\0\x16\0\0\0\x01\0\x01\0\x01\0\0\0\x04\0\0\0)\0\0",
            DESCRIBE,
            EXECUTE,
            SYNC,
        ],
        &[
            PARSED,
            BOUND,
            b"T\0\0\0!\0\x01?column?\0\0\0\0\0\0\0\0\0\0\x17\0\x04\xff\xff\xff\xff\0\0",
            b"D\0\0\0\x0c\0\x01\0\0\0\x0242",
            b"C\0\0\0\x0dSELECT 1\0",
            IDLE,
        ],
    ),
];

const CONVERSATIONS: [Conversation; 5] = [
    PSQL_ERROR,
    PSQL_CANCEL,
    PSYCOPG2_TRANSACTION,
    PSYCOPG3_EXTENDED,
    PGJDBC_EXTENDED,
];

// The frames of an answer are passed on, and its ReadyForQuery ends the request.
fn assert_response(rt: &impl Abort, client: &mut Client, response: &[&[u8]]) {
    for text in response {
        match *text {
            [b'Z', _, _, _, _, status] => {
                assert_head(rt, client, b'Z', 5, HeadDone::Ready);
                let expected = if *status == b'I' {
                    Release(text)
                } else {
                    ToClient(text)
                };
                assert_ready(rt, client, *status, expected);
            }
            [kind, rest @ ..] => assert_head(rt, client, *kind, rest.len(), HeadDone::PassOn),
            [] => {}
        }
    }
}

#[test]
fn conversations(rt: HostRuntime) -> Result<(), Fail> {
    for conversation in CONVERSATIONS {
        let mut client = new(rt.alloc());
        for (request, response) in conversation {
            let Some((last, parts)) = request.split_last() else {
                continue;
            };
            assert_group(&rt, &mut client, parts, last, Asks::Request)?;
            assert_response(&rt, &mut client, response);
        }
        assert!(rt; !client.holds_lease());
    }
    Ok(())
}
