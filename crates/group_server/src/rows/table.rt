//! Rows as text with a head line, or as a JSON array of objects.
use serde_json::Value;
use std::alloc::{AllocError, Global};
use telemetry::Form;

// A second, in microseconds.
const MICROS: u64 = 1_000_000;

// What stands in a text where a value isn't known or isn't there.
const NONE: &str = "-";

/// A value of a row.
#[derive(Clone, Copy)]
pub enum Cell<'a> {
    /// A text. An empty one isn't known or isn't there.
    Text(&'a str),
    /// A number, if it is known and there.
    Number(Option<u64>),
    /// A time in microseconds.
    Time(u64),
}

/// A name of a column, and how wide it is in a text at least.
pub type Column = (&'static str, usize);

/// Rows that are being written.
#[derive(Drop)]
pub struct Table {
    alloc: Global,
    form: Form,
    columns: &'static [Column],
    text: Vec<u8>,
    rows: usize,
}

impl Table {
    /// Returns a table of these columns, without rows.
    pub fn new(alloc: Global, form: Form, columns: &'static [Column]) -> Result<Table, AllocError> {
        let mut table = Table {
            alloc,
            form,
            columns,
            text: Vec::new(alloc),
            rows: 0,
        };
        match form {
            Form::Text => table.put_names()?,
            Form::Json => table.put("[")?,
        }
        Ok(table)
    }

    // Appends the head line.
    fn put_names(&mut self) -> Result<(), AllocError> {
        let columns = self.columns;
        for (name, width) in columns {
            self.put_padded(name, *width)?;
        }
        self.end_line()
    }

    /// Appends a row with these values, in the order of the columns.
    pub fn add(&mut self, cells: &[Cell<'_>]) -> Result<(), AllocError> {
        match self.form {
            Form::Text => self.add_line(cells)?,
            Form::Json => self.add_object(cells)?,
        }
        self.rows = self.rows.saturating_add(1);
        Ok(())
    }

    fn add_line(&mut self, cells: &[Cell<'_>]) -> Result<(), AllocError> {
        let columns = self.columns;
        for ((_name, width), cell) in columns.iter().zip(cells) {
            self.put_plain(*cell, *width)?;
        }
        self.end_line()
    }

    // Appends a value of a text.
    fn put_plain(&mut self, cell: Cell<'_>, width: usize) -> Result<(), AllocError> {
        match cell {
            Cell::Text(text) => self.put_padded(shown(text), width),
            Cell::Number(None) => self.put_padded(NONE, width),
            Cell::Number(Some(number)) => {
                let digits = number.to_string(self.alloc)?;
                self.put_padded(digits.as_str(), width)
            }
            Cell::Time(micros) => {
                let seconds = seconds_text(self.alloc, micros)?;
                self.put_padded(seconds.as_str(), width)
            }
        }
    }

    // Appends a text and spaces, at least two and up to this width.
    fn put_padded(&mut self, text: &str, width: usize) -> Result<(), AllocError> {
        self.put(text)?;
        self.put("  ")?;
        for _ in text.len()..width {
            self.put(" ")?;
        }
        Ok(())
    }

    // Ends a line, without the spaces at its end.
    fn end_line(&mut self) -> Result<(), AllocError> {
        let kept = self.text.trim_ascii_end().len();
        self.text.truncate(kept);
        self.put("\n")
    }

    fn add_object(&mut self, cells: &[Cell<'_>]) -> Result<(), AllocError> {
        if self.rows > 0 {
            self.put(",")?;
        }
        self.put("\n{")?;
        let columns = self.columns;
        for (place, ((name, _width), cell)) in columns.iter().zip(cells).enumerate() {
            if place > 0 {
                self.put(",")?;
            }
            self.put("\"")?;
            self.put(name)?;
            self.put("\":")?;
            self.put_json(*cell)?;
        }
        self.put("}")
    }

    // Appends a value of JSON.
    fn put_json(&mut self, cell: Cell<'_>) -> Result<(), AllocError> {
        match cell {
            Cell::Text(text) => self.put_string(text),
            Cell::Number(None) => self.put("null"),
            Cell::Number(Some(number)) => {
                let digits = number.to_string(self.alloc)?;
                self.put(digits.as_str())
            }
            Cell::Time(micros) => {
                let seconds = seconds_text(self.alloc, micros)?;
                self.put(seconds.as_str())
            }
        }
    }

    // Appends a string of JSON.
    fn put_string(&mut self, text: &str) -> Result<(), AllocError> {
        if text.is_empty() {
            return self.put("null");
        }
        let value = Value::String(String::from_str(self.alloc, text)?);
        let string = value.to_string(self.alloc)?;
        self.put(string.as_str())
    }

    /// Returns the text.
    pub fn finish(self) -> Result<Vec<u8>, AllocError> {
        let Table { form, mut text, .. } = self;
        if form == Form::Json {
            text.extend_from_slice(b"\n]\n")?;
        }
        Ok(text)
    }

    fn put(&mut self, text: &str) -> Result<(), AllocError> {
        self.text.extend_from_slice(text.as_bytes())
    }
}

// Returns a text, or what stands for one that isn't there.
fn shown(text: &str) -> &str {
    if text.is_empty() {
        return NONE;
    }
    text
}

// Returns a time in seconds, with three digits after the point.
fn seconds_text(alloc: Global, micros: u64) -> Result<String, AllocError> {
    let seconds = micros / MICROS;
    let millis = micros % MICROS / 1_000;
    format!(in alloc; "{seconds}.{millis:03}")
}
