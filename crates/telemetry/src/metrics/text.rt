//! Lines of Prometheus' text format (its manual, "Exposition formats").
ghost use Rattle.std.specs.Prelude.{◌≡◌, ◌++◌, ◌∷◌, IfOk, OnOk};
ghost use Rattle.telemetry.specs.MetricsText.{escaped, escaped_byte, label, line, with_label, sample};

use std::alloc::{AllocError, Global};

/// The type of a metric.
#[derive(Clone, Copy, Debug, PartialEq, Eq)]
pub enum Kind {
    /// A number that only rises while the process runs.
    Counter,
    /// A number that rises and falls.
    Gauge,
    /// The number of values up to each bound, and their sum.
    Histogram,
}

impl Kind {
    // Returns its name in a TYPE line.
    fn name(self) -> &'static str {
        match self {
            Kind::Counter => "counter",
            Kind::Gauge => "gauge",
            Kind::Histogram => "histogram",
        }
    }
}

/// Appends the HELP and TYPE lines of a metric. The help is one line without a backslash.
pub fn put_head(text: &mut Vec<u8>, name: &str, kind: Kind, help: &str) -> Result<(), AllocError> {
    put(text, "# HELP ")?;
    put(text, name)?;
    put(text, " ")?;
    put(text, help)?;
    put(text, "\n# TYPE ")?;
    put(text, name)?;
    put(text, " ")?;
    put(text, kind.name())?;
    put(text, "\n")
}

/// Appends the line of a value with these labels.
pub fn put_sample(
    alloc: Global,
    text: &mut Vec<u8>,
    name: &str,
    labels: &[u8],
    value: u64,
) -> Result<(), AllocError>
    ensures { OnOk result (text.new.items
        ≡ text.old.items ++ sample name.now labels.now value) }
{
    let digits = value.to_string(alloc)?;
    put_line(text, name, labels, digits.as_str())
}

/// Appends the line of a value that is already text.
pub fn put_line(
    text: &mut Vec<u8>,
    name: &str,
    labels: &[u8],
    value: &str,
) -> Result<(), AllocError>
    ensures { OnOk result (text.new.items
        ≡ text.old.items ++ line name.now labels.now value.now) }
{
    put(text, name)?;
    text.push(b'{')?;
    text.extend_from_slice(labels)?;
    put(text, "} ")?;
    put(text, value)?;
    text.push(b'\n')?;
    Ok(())
}

/// Returns these labels and another one.
pub fn labels_with(
    alloc: Global,
    labels: &[u8],
    name: &str,
    value: &str,
) -> Result<Vec<u8>, AllocError>
    ensures { IfOk result (λ made.
        made.items ≡ with_label labels.now (label name.now value.now)) }
{
    let mut text = Vec::new(alloc);
    text.extend_from_slice(labels)?;
    if !labels.is_empty() {
        text.push(b',')?;
    }
    put_label(&mut text, name, value)?;
    Ok(text)
}

// Appends a label.
fn put_label(text: &mut Vec<u8>, name: &str, value: &str) -> Result<(), AllocError>
    ensures { OnOk result (text.new.items ≡ text.old.items ++ label name.now value.now) }
{
    put(text, name)?;
    put(text, "=\"")?;
    put_escaped(text, value.as_bytes())?;
    text.push(b'"')?;
    Ok(())
}

// Appends a label's value.
fn put_escaped(text: &mut Vec<u8>, value: &[u8]) -> Result<(), AllocError>
    ensures { OnOk result (text.new.items ≡ text.old.items ++ escaped value.now) }
{
    for byte in value {
        put_byte(text, *byte)?;
    }
    Ok(())
}

// Appends a byte of a label's value.
fn put_byte(text: &mut Vec<u8>, byte: u8) -> Result<(), AllocError>
    ensures { OnOk result (text.new.items ≡ text.old.items ++ escaped_byte byte) }
{
    match byte {
        b'\\' => put(text, "\\\\"),
        b'"' => put(text, "\\\""),
        b'\n' => put(text, "\\n"),
        _ => {
            text.push(byte)?;
            Ok(())
        }
    }
}

/// Appends a text.
pub fn put(text: &mut Vec<u8>, more: &str) -> Result<(), AllocError>
    ensures { OnOk result (text.new.items ≡ text.old.items ++ more.now) }
{
    text.extend_from_slice(more.as_bytes())
}
