//! The messages of the protocol, as the PostgreSQL manual's "Message Formats" has them.

// A message: its name, its first byte (0 for the first packets, which have none), the code that its
// body begins with in any case, and the fields of its body, of which the last ones are repeated.
//
// A field is `s` for a String, `c` for a Byte1, `2` for an Int16, `4` for an Int32, `v` for an Int32
// and as many bytes, and `x` for the rest, as bytes.
#[derive(Clone, Copy)]
pub(crate) struct Kind {
    pub(crate) name: &'static str,
    pub(crate) letter: u8,
    pub(crate) code: &'static [u8],
    pub(crate) fields: &'static str,
    pub(crate) repeated: &'static str,
}

macro_rules! kind {
    ($name:expr, $letter:expr, $fields:expr, $repeated:expr) => {
        Kind {
            name: $name,
            letter: $letter,
            code: &[],
            fields: $fields,
            repeated: $repeated,
        }
    };
}

macro_rules! packet {
    ($name:expr, $code:expr) => {
        Kind {
            name: $name,
            letter: 0,
            code: $code,
            fields: "",
            repeated: "4",
        }
    };
}

// What clients send.
pub(crate) const FRONTEND: &[Kind] = &[
    packet!("CancelRequest", &[4, 0xd2, 0x16, 0x2e]),
    packet!("SSLRequest", &[4, 0xd2, 0x16, 0x2f]),
    packet!("GSSENCRequest", &[4, 0xd2, 0x16, 0x30]),
    kind!("StartupMessage", 0, "4", "s"),
    kind!("Bind", b'B', "ss", "x"),
    kind!("Describe", b'D', "cs", "x"),
    kind!("Execute", b'E', "s4", "x"),
    kind!("FunctionCall", b'F', "", "x"),
    kind!("Parse", b'P', "ss2", "4"),
    kind!("Query", b'Q', "s", "x"),
    kind!("Sync", b'S', "", "x"),
    kind!("Terminate", b'X', "", "x"),
];

// What servers send.
pub(crate) const BACKEND: &[Kind] = &[
    kind!("ParseComplete", b'1', "", "x"),
    kind!("BindComplete", b'2', "", "x"),
    kind!("CommandComplete", b'C', "s", "x"),
    kind!("DataRow", b'D', "2", "v"),
    kind!("ErrorResponse", b'E', "", "cs"),
    kind!("CopyInResponse", b'G', "", "x"),
    kind!("BackendKeyData", b'K', "", "4"),
    kind!("NoticeResponse", b'N', "", "cs"),
    kind!("AuthenticationOk", b'R', "4", "x"),
    kind!("ParameterStatus", b'S', "ss", "x"),
    kind!("RowDescription", b'T', "2", "s424242"),
    kind!("ReadyForQuery", b'Z', "c", "x"),
    kind!("NoData", b'n', "", "x"),
];

// The message of this name.
pub(crate) fn kind_of(name: &str) -> Option<Kind> {
    match named(FRONTEND, name) {
        Some(kind) => Some(kind),
        None => named(BACKEND, name),
    }
}

fn named(kinds: &[Kind], name: &str) -> Option<Kind> {
    for kind in kinds {
        if kind.name == name {
            return Some(*kind);
        }
    }
    None
}
