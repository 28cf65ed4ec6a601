//! Tests with values from outside: RFC 4231, RFC 7914, RFC 7677, and PostgreSQL 15.
use crate::{
    ClientError, ClientFirst, Entry, EntryError, Received, SaltedPassword, ServerError, Verifier,
    hi, hmac, prepare,
};
use std::alloc::Global;

// RFC 4231, section 4, test cases 1 to 4, 6 and 7.
#[test]
fn hmac_vectors(rt: HostRuntime) {
    assert!(rt;
        hmac(&[0x0b; 20], b"Hi There")
            == *b"\xb0\x34\x4c\x61\xd8\xdb\x38\x53\x5c\xa8\xaf\xce\xaf\x0b\xf1\x2b\x88\x1d\xc2\x00\xc9\x83\x3d\xa7\x26\xe9\x37\x6c\x2e\x32\xcf\xf7"
    );
    assert!(rt;
        hmac(b"Jefe", b"what do ya want for nothing?")
            == *b"\x5b\xdc\xc1\x46\xbf\x60\x75\x4e\x6a\x04\x24\x26\x08\x95\x75\xc7\x5a\x00\x3f\x08\x9d\x27\x39\x83\x9d\xec\x58\xb9\x64\xec\x38\x43"
    );
    assert!(rt;
        hmac(&[0xaa; 20], &[0xdd; 50])
            == *b"\x77\x3e\xa9\x1e\x36\x80\x0e\x46\x85\x4d\xb8\xeb\xd0\x91\x81\xa7\x29\x59\x09\x8b\x3e\xf8\xc1\x22\xd9\x63\x55\x14\xce\xd5\x65\xfe"
    );
    assert!(rt;
        hmac(
            b"\x01\x02\x03\x04\x05\x06\x07\x08\x09\x0a\x0b\x0c\x0d\x0e\x0f\x10\x11\x12\x13\x14\x15\x16\x17\x18\x19",
            &[0xcd; 50]
        ) == *b"\x82\x55\x8a\x38\x9a\x44\x3c\x0e\xa4\xcc\x81\x98\x99\xf2\x08\x3a\x85\xf0\xfa\xa3\xe5\x78\xf8\x07\x7a\x2e\x3f\xf4\x67\x29\x66\x5b"
    );
    assert!(rt;
        hmac(
            &[0xaa; 131],
            b"Test Using Larger Than Block-Size Key - Hash Key First"
        ) == *b"\x60\xe4\x31\x59\x1e\xe0\xb6\x7f\x0d\x8a\x26\xaa\xcb\xf5\xb7\x7f\x8e\x0b\xc6\x21\x37\x28\xc5\x14\x05\x46\x04\x0f\x0e\xe3\x7f\x54"
    );
    assert!(rt;
        hmac(
            &[0xaa; 131],
            b"This is a test using a larger than block-size key and a larger than block-size data. The key needs to be hashed before being used by the HMAC algorithm."
        ) == *b"\x9b\x09\xff\xa7\x1b\x94\x2f\xcb\x27\x63\x5f\xbc\xd5\xb0\xe9\x44\xbf\xdc\x63\x64\x4f\x07\x13\x93\x8a\x7f\x51\x53\x5c\x3a\x35\xe2"
    );
}

// RFC 7914, section 11 (the first of two blocks), and the passwords of RFC 6070 with SHA-256.
#[test]
fn hi_vectors(rt: HostRuntime) {
    assert!(rt;
        hi(b"passwd", b"salt", 1)
            == *b"\x55\xac\x04\x6e\x56\xe3\x08\x9f\xec\x16\x91\xc2\x25\x44\xb6\x05\xf9\x41\x85\x21\x6d\xde\x04\x65\xe6\x8b\x9d\x57\xc2\x0d\xac\xbc"
    );
    assert!(rt;
        hi(b"password", b"salt", 1)
            == *b"\x12\x0f\xb6\xcf\xfc\xf8\xb3\x2c\x43\xe7\x22\x52\x56\xc4\xf8\x37\xa8\x65\x48\xc9\x2c\xcc\x35\x48\x08\x05\x98\x7c\xb7\x0b\xe1\x7b"
    );
    assert!(rt;
        hi(b"password", b"salt", 2)
            == *b"\xae\x4d\x0c\x95\xaf\x6b\x46\xd3\x2d\x0a\xdf\xf9\x28\xf0\x6d\xd0\x2a\x30\x3f\x8e\xf3\xc2\x51\xdf\xd6\xe2\xd8\x5a\x95\x47\x4c\x43"
    );
    assert!(rt;
        hi(b"password", b"salt", 4096)
            == *b"\xc5\xe4\x78\xd5\x92\x88\xc8\x41\xaa\x53\x0d\xb6\x84\x5c\x4c\x8d\x96\x28\x93\xa0\x01\xce\x4e\x11\xa4\x96\x38\x73\xaa\x98\x13\x4a"
    );
    assert!(rt;
        hi(
            b"passwordPASSWORDpassword",
            b"saltSALTsaltSALTsaltSALTsaltSALTsalt",
            4096
        ) == *b"\x34\x8c\x89\xdb\xcb\xd3\x2b\x2f\x32\xd8\x14\xb8\x11\x6e\x84\xcf\x2b\x17\x34\x7e\xbc\x18\x00\x18\x1c\x4e\x2a\x1f\xb8\xdd\x53\xe1"
    );
}

// The exchange of RFC 7677, section 3, from the server's side: the messages of "user" and "pencil".
#[test]
fn server_of_rfc_7677(rt: HostRuntime) {
    let alloc = rt.alloc();
    let final_message =
        b"c=biws,r=rOprNGfwEbeRWgbNEkqO%hvYDpWUa2RaTCAfuxFIlj)hNlF$k0,p=dHzbZapWIk4jUhN+Ute9ytag9zjfMHgsqmmiz7AndVQ=";
    let answer = served(alloc, b"pencil", final_message);
    assert!(rt; is_answer(answer, b"v=6rriTRBi23WpRR/wtup+mMhUZUn/dB5nLTJRsjl95G4="));
    assert!(rt; served(alloc, b"pencil2", final_message).is_none());
}

// What a server with this password answers, if it finds its own messages to be the RFC's.
fn served(alloc: Global, password: &[u8], last: &[u8]) -> Option<Vec<u8>> {
    let salt = b"\x5b\x6d\x99\x68\x9d\x12\x35\x8e\xec\xa0\x4b\x14\x12\x36\xfa\x81";
    let salted = SaltedPassword::new(alloc, password, salt, 4096).ok()?;
    let verifier = Verifier::known(Entry::of(alloc, &salted).ok()?);
    let received = Received::read(alloc, b"n,,n=user,r=rOprNGfwEbeRWgbNEkqO").ok()?;
    let asked = received
        .challenge(&verifier, b"%hvYDpWUa2RaTCAfuxFIlj)hNlF$k0")
        .ok()?;
    if asked.message()
        != b"r=rOprNGfwEbeRWgbNEkqO%hvYDpWUa2RaTCAfuxFIlj)hNlF$k0,s=W22ZaJ0SNY7soEsUEjb6gQ==,i=4096".as_slice()
    {
        return None;
    }
    let proved = asked.check(last).ok()?;
    Vec::from_slice(alloc, proved.message()).ok()
}

fn is_answer(answer: Option<Vec<u8>>, wanted: &[u8]) -> bool {
    match answer {
        Some(text) => text.as_slice() == wanted,
        None => false,
    }
}

// Logins at PostgreSQL 15, which took these proofs and gave these signatures.
#[test]
fn clients_of_postgresql(rt: HostRuntime) {
    let alloc = rt.alloc();
    let quotes = [
        b"fyko+d2lbbFgONRv9qkxdawL".as_slice(),
        b"r=fyko+d2lbbFgONRv9qkxdawLI4zFaWNZ8HnqyfRfXl7T5BPF,s=8pS4BEM2iBFiNdZWcvBlUQ==,i=4096",
        b"c=biws,r=fyko+d2lbbFgONRv9qkxdawLI4zFaWNZ8HnqyfRfXl7T5BPF,p=A5/CpV75kcKDGUjEa7+6In9gypjq5K3gJpTb8O4FW7Q=",
        b"v=lvchfozcapQPtM4kKkF+K+GmMA1nqgSyGcFiHLm763U=",
    ];
    assert!(rt; logs_in(alloc, b"it's \"quoted\"", &quotes));
    assert!(rt; !logs_in(alloc, b"secret", &quotes));
    let decomposed = [
        b"hVvVyz7DqgFLtZoC8mXb1u2N".as_slice(),
        b"r=hVvVyz7DqgFLtZoC8mXb1u2NiS13rNi8QUScI2jyONEzt9bE,s=OjO/kBTin1oNEoxWu8kOsg==,i=4096",
        b"c=biws,r=hVvVyz7DqgFLtZoC8mXb1u2NiS13rNi8QUScI2jyONEzt9bE,p=CxaHORXvcCxCr0ZxxU7CCZXoQMM9dAXyhcTrBqoCn60=",
        b"v=1J9bgSG27ST1yaCG3KSMesf4OCvgYLeks3nGRXmD5/g=",
    ];
    assert!(rt; logs_in(alloc, b"pa\xcc\x88sswo\xcc\x88rd", &decomposed));
}

// Whether a client with this password and nonce says and takes what PostgreSQL took and said: nonce,
// server-first-message, client-final-message, server-final-message.
fn logs_in(alloc: Global, password: &[u8], said: &[&[u8]; 4]) -> bool {
    match log_in(alloc, password, said) {
        Some(done) => done,
        None => false,
    }
}

fn log_in(alloc: Global, password: &[u8], said: &[&[u8]; 4]) -> Option<bool> {
    let challenge = ClientFirst::new(alloc, said[0]).ok()?.read(said[1]).ok()?;
    if challenge.iterations() != 4096 {
        return None;
    }
    let prepared = prepare(alloc, password).ok()?;
    let salted = SaltedPassword::new(alloc, &prepared, challenge.salt(), 4096).ok()?;
    let expecting = challenge.prove(&salted).ok()?;
    if expecting.message() != said[2] {
        return None;
    }
    Some(expecting.read(said[3]).is_ok())
}

// Entries that PostgreSQL 15 made of these passwords.
#[test]
fn entries_of_postgresql(rt: HostRuntime) {
    let alloc = rt.alloc();
    let text =
        b"SCRAM-SHA-256$4096:LLNVgkUdznYC4M7IcnoqWg==$DBSoB+7Kyu7BNLFlx1b4qKWtDXYWR/2MvsaWoz1txqw=:bjd/MLdMAn6u3GSL0GWReFr/0eV1V2QJ503mR2p/l8Y=";
    assert!(rt; is_entry_of(alloc, b"secret", text));
    let text =
        b"SCRAM-SHA-256$4096:8pS4BEM2iBFiNdZWcvBlUQ==$BQQ1ttCmst3/feIDEiY9uURBFijC54MpQY2oWpnEis4=:aVbeoRRvjMt37asO//bw9Pzgyi1+zfZG2oO5KJeGkSM=";
    assert!(rt; is_entry_of(alloc, b"it's \"quoted\"", text));
    let text =
        b"SCRAM-SHA-256$4096:dBCM2Yoq1330xoEj5h2nmg==$rc//d2f8MzVnd60PWDAy8Z4UZ4k1sCo0fRrYfxX3UgA=:41G3Ne2EEMtR3JoF10CDROW1JnpWJOBhWhyJi54wP7g=";
    assert!(rt; is_entry_of(alloc, b"  two  blanks ", text));
}

// The same, of one that is normalized, one that is no UTF-8, and one of 1,000 bytes.
#[test]
fn entries_of_other_passwords(rt: HostRuntime) {
    let alloc = rt.alloc();
    let text =
        b"SCRAM-SHA-256$4096:OjO/kBTin1oNEoxWu8kOsg==$jv2sO/HMIdZsakHdu7j1PIvXSJl1xjW/rVN+rRctFWE=:WGTNok/lwxhrrkzB23E023mouSt56AHD1uv+QQY4bTQ=";
    assert!(rt; is_entry_of(alloc, b"pa\xcc\x88sswo\xcc\x88rd", text));
    let text =
        b"SCRAM-SHA-256$4096:JgpDWIn+2ljtIMd4upHH2w==$NG6qXJx+/IurFei+vF8kSLXjZP0UuH3wT5ag40hXWus=:SxCuKEv4aL/ccXA8wL6Q8XHSz1Dt7gE5xE8t9KrxBec=";
    assert!(rt; is_entry_of(alloc, b"\xffab", text));
    let text =
        b"SCRAM-SHA-256$4096:i3047FJgWagg0wGIhiK/Tw==$DfFz6d9yFfdZQVqFF2SRVKBR+iLYUFtcRguAZSx3Qg4=:CJmOaB6MVJI8QCmQkXIwy95QQUqOnArHXjyZC3bOkYw=";
    assert!(rt; is_entry_of(alloc, &[b'x'; 1000], text));
}

// What PostgreSQL 15 made entries of, for these passwords.
#[test]
fn prepared_by_postgresql(rt: HostRuntime) {
    let alloc = rt.alloc();
    let rows: [(&[u8], &[u8]); 29] = [
        (b"secret", b"secret"),
        (b"it's \"quoted\"", b"it's \"quoted\""),
        (b"  two  blanks ", b"  two  blanks "),
        (b"p\xc3\xa4ssw\xc3\xb6rd", b"p\xc3\xa4ssw\xc3\xb6rd"),
        (b"pa\xcc\x88sswo\xcc\x88rd", b"p\xc3\xa4ssw\xc3\xb6rd"),
        (b"a\xc2\xa0b\xe2\x80\x83c", b"a b c"),
        (b"soft\xc2\xadhyphen", b"softhyphen"),
        (b"\xe2\x85\xa8\xef\xac\x81x", b"IXfix"),
        (b"\xd7\x90\xd7\x91", b"\xd7\x90\xd7\x91"),
        (b"\xd7\x90a\xd7\x91", b"\xd7\x90a\xd7\x91"),
        (b"key\xf0\x9f\x94\x91", b"key\xf0\x9f\x94\x91"),
        (b"tab\x09here\x01", b"tab\x09here\x01"),
        (b"a\xc2\x85b", b"a\xc2\x85b"),
        (b"\xc2\xad", b"\xc2\xad"),
        (b"\xce\xa9\xe2\x84\xa6", b"\xce\xa9\xce\xa9"),
        (b"\xd8\xa71", b"\xd8\xa71"),
        (b"\xd8\xa71\xd8\xa8", b"\xd8\xa71\xd8\xa8"),
        (b"\xc8\xa1", b"\xc8\xa1"),
        (
            b"\xc7\x84 \xef\xac\x80 \xc2\xbd \xc2\xb2 \xef\xb7\xba",
            b"\xc7\x84 \xef\xac\x80 \xc2\xbd \xc2\xb2 \xef\xb7\xba",
        ),
        (b"\xd7\x90\xef\xbd\x81", b"\xd7\x90\xef\xbd\x81"),
        (
            b"\xf0\x9f\x94\x91\xef\xbd\x81",
            b"\xf0\x9f\x94\x91\xef\xbd\x81",
        ),
        (b"\x01\xef\xbd\x81", b"\x01\xef\xbd\x81"),
        (b"\xc8\xa1\xef\xbd\x81", b"\xc8\xa1\xef\xbd\x81"),
        (b"\xd8\xa71\xef\xad\x90", b"\xd8\xa71\xd9\xb1"),
        (b"\xef\xad\x90 1", b"\xef\xad\x90 1"),
        (b"\xef\xad\x901\xef\xad\x90", b"\xd9\xb11\xd9\xb1"),
        (b"\xffab", b"\xffab"),
        (b"ab\xc3", b"ab\xc3"),
        (b"\xed\xa0\x80", b"\xed\xa0\x80"),
    ];
    for (password, prepared) in &rows {
        assert!(rt; is_prepared(alloc, password, prepared));
    }
}

fn is_prepared(alloc: Global, password: &[u8], prepared: &[u8]) -> bool {
    match prepare(alloc, password) {
        Ok(found) => found.as_slice() == prepared,
        Err(_) => false,
    }
}

// Whether this is the text of the password's entry with the salt and iterations that stand in it.
fn is_entry_of(alloc: Global, password: &[u8], text: &[u8]) -> bool {
    match entry_of(alloc, password, text) {
        Some(made) => made.as_slice() == text,
        None => false,
    }
}

fn entry_of(alloc: Global, password: &[u8], text: &[u8]) -> Option<Vec<u8>> {
    let entry = Entry::read(alloc, text).ok()?;
    let prepared = prepare(alloc, password).ok()?;
    let salted = SaltedPassword::new(alloc, &prepared, entry.salt(), entry.iterations()).ok()?;
    Entry::of(alloc, &salted).ok()?.text(alloc).ok()
}

// Messages that are refused, each with its reason.
#[test]
fn refusals(rt: HostRuntime) {
    let alloc = rt.alloc();
    assert!(rt;
        refuses_first(
            alloc,
            b"p=tls-unique,,n=,r=abc",
            ServerError::ChannelBinding
        )
    );
    assert!(rt; refuses_first(alloc, b"n,a=other,n=,r=abc", ServerError::Authorization));
    assert!(rt; refuses_first(alloc, b"n,,m=x,n=,r=abc", ServerError::Extension));
    assert!(rt; refuses_first(alloc, b"n,,n=,r=", ServerError::Malformed));
    assert!(rt; refuses_first(alloc, b"n,,n=,r=abc,x=y", ServerError::Malformed));
    assert!(rt; refuses_asked(alloc, b"r=abcd,s=AAAA,i=0", ClientError::BadIterations));
    assert!(rt;
        refuses_asked(
            alloc,
            b"r=abcd,s=AAAA,i=1000001",
            ClientError::BadIterations
        )
    );
    assert!(rt; refuses_asked(alloc, b"r=abcd,s=AAA,i=1", ClientError::BadSalt));
    assert!(rt; refuses_asked(alloc, b"r=abc,s=AAAA,i=1", ClientError::OtherNonce));
    assert!(rt; refuses_asked(alloc, b"r=abd,s=AAAA,i=1", ClientError::OtherNonce));
    assert!(rt; refuses_asked(alloc, b"m=x,r=abcd,s=AAAA,i=1", ClientError::Extension));
    assert!(rt;
        refuses_entry(
            alloc,
            b"md5e8a48653851e28c69d0506508fb27fc5",
            EntryError::OtherMethod
        )
    );
    assert!(rt;
        refuses_entry(
            alloc,
            b"SCRAM-SHA-256$4096:AAAA$AAAA:AAAA",
            EntryError::Malformed
        )
    );
}

fn refuses_first(alloc: Global, text: &[u8], why: ServerError) -> bool {
    match Received::read(alloc, text) {
        Ok(_) => false,
        Err(error) => error == why,
    }
}

// A client whose nonce is `abc`.
fn refuses_asked(alloc: Global, text: &[u8], why: ClientError) -> bool {
    let Ok(first) = ClientFirst::new(alloc, b"abc") else {
        return false;
    };
    match first.read(text) {
        Ok(_) => false,
        Err(error) => error == why,
    }
}

fn refuses_entry(alloc: Global, text: &[u8], why: EntryError) -> bool {
    match Entry::read(alloc, text) {
        Ok(_) => false,
        Err(error) => error == why,
    }
}
