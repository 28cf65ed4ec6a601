//! What a pooler writes to a client before and about its session.
ghost use Rattle.std.specs.Prelude.{◌≡◌, ◌+◌, ◌*◌, ◌≤◌, ◌∷◌, ◌++◌, length, OnOk, OnErr, IsOkUnless};
ghost use Rattle.startup.specs.ErrorCode.{severity_text};
ghost use Rattle.startup.specs.Replies.{login_reporting, error_fields, error_response, IsFieldText};

use crate::append::append;
use crate::error_code::Severity;
use crate::reports::Reports;
use crate::startup_error::StartupError;
use pg_ids::AnyKey;

// AuthenticationOk and the three parameters that every login reports.
const GREETING: &[u8; 84] = b"R\0\0\0\x08\0\0\0\0\
    S\0\0\0\x16server_version\016\0\
    S\0\0\0\x19server_encoding\0UTF8\0\
    S\0\0\0\x19client_encoding\0UTF8\0";

// BackendKeyData up to its key, of eight bytes and of 24, and ReadyForQuery, idle.
const KEY_DATA: &[u8; 5] = b"K\0\0\0\x0c";

const LONG_KEY_DATA: &[u8; 5] = b"K\0\0\0\x1c";

const READY: &[u8; 6] = b"Z\0\0\0\x05I";

/// Puts a login's messages at the end of the buffer, with BackendKeyData where the client has a key
/// (PostgreSQL manual, "Start-up"; which parameters are reported is own). The only error is
/// `Memory`.
pub fn write_login(
    key: Option<AnyKey>,
    reports: &Reports,
    out: &mut Vec<u8>,
) -> Result<(), StartupError>
    ensures ok { OnOk result (out.new.items ≡ out.old.items ++ login_reporting reports.now key) }
    ensures err { OnErr result (out.new.items ≡ out.old.items) }
    ensures memory { IsOkUnless result StartupError.Memory }
{
    let messages = reports.messages();
    match key {
        Some(AnyKey::Short(key)) => append(
            out,
            &[GREETING, messages, KEY_DATA, &key.to_bytes(), READY],
        ),
        Some(AnyKey::Long(key, part)) => append(
            out,
            &[
                GREETING,
                messages,
                LONG_KEY_DATA,
                &key.to_bytes(),
                &part.to_bytes(),
                READY,
            ],
        ),
        None => append(out, &[GREETING, messages, READY]),
    }
}

/// Puts an ErrorResponse at the end of the buffer: its severity twice, its code and its message
/// (PostgreSQL manual, "Error and Notice Message Fields"). The only error is `Memory`.
pub fn write_error(
    severity: Severity,
    code: &str,
    message: &str,
    out: &mut Vec<u8>,
) -> Result<(), StartupError>
    requires code { IsFieldText code.now }
    requires message { IsFieldText message.now }
    ensures ok { OnOk result (out.new.items ≡ out.old.items
        ++ error_response (severity_text severity) code.now message.now) }
    ensures err { OnErr result (out.new.items ≡ out.old.items) }
    ensures memory { IsOkUnless result StartupError.Memory }
{
    // The length, and for each field its type byte and a zero byte; the body ends with another.
    let severity = severity.text();
    let length = 4 + 4 * 2 + 1 + 2 * severity.len() + code.len() + message.len();
    write_fields(&(length as u32).to_be_bytes(), severity, code, message, out)
}

// Puts an ErrorResponse of this length at the end of the buffer.
fn write_fields<'a>(
    size: &'a [u8],
    severity: &'a str,
    code: &'a str,
    message: &'a str,
    out: &mut Vec<u8>,
) -> Result<(), StartupError>
    requires { length size.now + 2 * length severity.now + length code.now
        + length message.now ≤ 65536 }
    ensures ok { OnOk result (out.new.items ≡ out.old.items
        ++ (69 ∷ size.now ++ error_fields severity.now code.now message.now)) }
    ensures err { OnErr result (out.new.items ≡ out.old.items) }
    ensures memory { IsOkUnless result StartupError.Memory }
{
    append(
        out,
        &[
            b"E",
            size,
            b"S",
            severity.as_bytes(),
            b"\0V",
            severity.as_bytes(),
            b"\0C",
            code.as_bytes(),
            b"\0M",
            message.as_bytes(),
            b"\0\0",
        ],
    )
}
