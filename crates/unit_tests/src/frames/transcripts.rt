//! Streams of real clients and a real server (`tools/transcripts`), in the pieces in which they
//! came.
use super::*;

// The pieces of a stream, and the types and the length fields of its messages.
type Recorded = (&'static [&'static [u8]], &'static [u8], &'static [usize]);

// The server to psql, from its login on.
const TO_PSQL: Recorded = (
    &[
        b"R\0\0\0\x08\0\0\0\0S\0\0\0\x1aapplication_name\0psql\0S\0\0\0\x19client_encoding\0UTF8\0\
        S\0\0\0\x17DateStyle\0ISO, MDY\0S\0\0\0&default_transaction_read_only\0off\0S\0\0\0\x17in_\
        hot_standby\0off\0S\0\0\0\x19integer_datetimes\0on\0S\0\0\0\x1bIntervalStyle\0postgres\0S\
        \0\0\0\x15is_superuser\0off\0S\0\0\0\x19server_encoding\0UTF8\0S\0\0\x002server_version\
        \x0015.18 (Debian 15.18-0+deb12u1)\0S\0\0\0\x1esession_authorization\0app\0S\0\0\0#standar\
        d_conforming_strings\0on\0S\0\0\0\x15TimeZone\0Etc/UTC\0K\0\0\0\x0c\0\0<\xed\xb5\xfd~!Z\0\
        \0\0\x05I",
        b"T\0\0\0\x1f\0\x01answer\0\0\0\0\0\0\0\0\0\0\x17\0\x04\xff\xff\xff\xff\0\0D\0\0\0\x0c\0\
        \x01\0\0\0\x0242C\0\0\0\x0dSELECT 1\0Z\0\0\0\x05I",
    ],
    b"RSSSSSSSSSSSSSKZTDCZ",
    &[
        8, 26, 25, 23, 38, 23, 25, 27, 21, 25, 50, 30, 35, 21, 12, 5, 31, 12, 13, 5,
    ],
);

// psycopg2 after its StartupMessage: a transaction.
const FROM_PSYCOPG2: Recorded = (
    &[
        b"Q\0\0\0\x0aBEGIN\0",
        b"Q\0\0\0!create temp table t (n int4)\0",
        b"Q\0\0\0\"insert into t values (1), (2)\0",
        b"Q\0\0\0\x1fselect n from t order by n\0",
        b"Q\0\0\0\x0dROLLBACK\0",
        b"X\0\0\0\x04",
    ],
    b"QQQQQX",
    &[10, 33, 34, 31, 13, 4],
);

// The server to psycopg 3 after the login: a query that is cancelled, and another.
const TO_PSYCOPG3: Recorded = (
    &[
        b"T\0\0\0!\0\x01pg_sleep\0\0\0\0\0\0\0\0\0\x08\xe6\0\x04\xff\xff\xff\xff\0\0E\0\0\0hSERROR\
        \0VERROR\0C57014\0Mcanceling statement due to user request\0Fpostgres.c\0L3349\0RProcessIn\
        terrupts\0\0",
        b"Z\0\0\0\x05I",
        b"T\0\0\0!\0\x01?column?\0\0\0\0\0\0\0\0\0\0\x17\0\x04\xff\xff\xff\xff\0\0D\0\0\0\x0b\0\
        \x01\0\0\0\x011C\0\0\0\x0dSELECT 1\0Z\0\0\0\x05I",
    ],
    b"TEZTDCZ",
    &[33, 104, 5, 33, 11, 13, 5],
);

// pgjdbc after its StartupMessage: what it sets, and two queries.
const FROM_PGJDBC: Recorded = (
    &[
        b"P\0\0\0\"\0SET extra_float_digits = 3\0\0\0B\0\0\0\x0c\0\0\0\0\0\0\0\0E\0\0\0\x09\0\0\0\
        \0\x01S\0\0\0\x04",
        b"P\0\0\x007\0SET application_name = 'PostgreSQL JDBC Driver'\0\0\0B\0\0\0\x0c\0\0\0\0\0\0\
        \0\0E\0\0\0\x09\0\0\0\0\x01S\0\0\0\x04",
        b"P\0\0\0\x1f\0select $1::int4 + 1\0\0\x01\0\0\0\x17B\0\0\0\x16\0\0\0\x01\0\x01\0\x01\0\0\
        \0\x04\0\0\0)\0\0D\0\0\0\x06P\0E\0\0\0\x09\0\0\0\0\0S\0\0\0\x04",
        b"P\0\0\0\x1b\0select pg_sleep(20)\0\0\0B\0\0\0\x0c\0\0\0\0\0\0\0\0D\0\0\0\x06P\0E\0\0\0\
        \x09\0\0\0\0\0S\0\0\0\x04",
        b"X\0\0\0\x04",
    ],
    b"PBESPBESPBDESPBDESX",
    &[
        34, 12, 9, 4, 55, 12, 9, 4, 31, 22, 6, 9, 4, 27, 12, 6, 9, 4, 4,
    ],
);

// The server to pgjdbc after the login.
const TO_PGJDBC: Recorded = (
    &[
        b"1\0\0\0\x042\0\0\0\x04C\0\0\0\x08SET\0Z\0\0\0\x05I",
        b"1\0\0\0\x042\0\0\0\x04C\0\0\0\x08SET\0S\0\0\0,application_name\0PostgreSQL JDBC Driver\0\
        Z\0\0\0\x05I",
        b"1\0\0\0\x042\0\0\0\x04T\0\0\0!\0\x01?column?\0\0\0\0\0\0\0\0\0\0\x17\0\x04\xff\xff\xff\
        \xff\0\0D\0\0\0\x0c\0\x01\0\0\0\x0242C\0\0\0\x0dSELECT 1\0Z\0\0\0\x05I",
        b"1\0\0\0\x042\0\0\0\x04T\0\0\0!\0\x01pg_sleep\0\0\0\0\0\0\0\0\0\x08\xe6\0\x04\xff\xff\xff\
        \xff\0\0E\0\0\0hSERROR\0VERROR\0C57014\0Mcanceling statement due to user request\0Fpostgre\
        s.c\0L3349\0RProcessInterrupts\0\0",
        b"Z\0\0\0\x05I",
    ],
    b"12CZ12CSZ12TDCZ12TEZ",
    &[
        4, 4, 8, 5, 4, 4, 8, 44, 5, 4, 4, 33, 12, 13, 5, 4, 4, 33, 104, 5,
    ],
);

// The messages with these types and these length fields, whose bodies are in the text.
fn messages_in<'a>(
    alloc: Global,
    text: &'a [u8],
    kinds: &[u8],
    lengths: &[usize],
) -> Result<Vec<(u8, &'a [u8])>, AllocError> {
    let mut messages = Vec::new(alloc);
    let mut rest = text;
    for (kind, length) in kinds.iter().zip(lengths) {
        let Some((message, after)) = rest.split_at_checked(length.saturating_add(1)) else {
            return Err(AllocError);
        };
        messages.push((*kind, message.get(5..).unwrap_or(&[])))?;
        rest = after;
    }
    Ok(messages)
}

// A stream in these pieces has these messages, whole and in parts.
fn assert_messages(
    rt: &(impl Abort + AllocGlobal),
    pieces: &[&[u8]],
    messages: &[(u8, &[u8])],
) -> Result<(), AllocError> {
    let cutting = cut(rt.alloc(), pieces)?;
    assert_eq!(rt; cutting.fault, None);
    assert_frames(rt, cutting.frames.as_slice(), messages);
    let parts = cut_in_parts(rt.alloc(), pieces)?;
    assert_eq!(rt; parts.fault, None);
    assert_frames(rt, whole_frames(rt, &parts)?.as_slice(), messages);
    Ok(())
}

// As the pieces came, whole, and in pieces of odd sizes.
fn assert_recorded(
    rt: &(impl Abort + AllocGlobal),
    (pieces, kinds, lengths): Recorded,
) -> Result<(), AllocError> {
    let mut text = Vec::new(rt.alloc());
    for piece in pieces {
        text.extend_from_slice(piece)?;
    }
    let messages = messages_in(rt.alloc(), text.as_slice(), kinds, lengths)?;
    assert_messages(rt, pieces, messages.as_slice())?;
    for size in [1, 3, 7, 61, 1_024] {
        let pieces = in_pieces(rt.alloc(), text.as_slice(), size)?;
        assert_messages(rt, pieces.as_slice(), messages.as_slice())?;
    }
    Ok(())
}

#[test]
fn recorded(rt: HostRuntime) -> Result<(), Fail> {
    for stream in [TO_PSQL, FROM_PSYCOPG2, TO_PSYCOPG3, FROM_PGJDBC, TO_PGJDBC] {
        assert_recorded(&rt, stream)?;
    }
    Ok(())
}
