//! What is told of many bytes: how many they are, and their Adler-32 (RFC 1950).
use std::fmt;

const BASE: u32 = 65_521;

#[derive(Clone, Copy)]
pub(crate) struct Sum {
    count: usize,
    low: u32,
    high: u32,
}

impl Sum {
    // The sum of no bytes.
    pub(crate) fn new() -> Sum {
        Sum {
            count: 0,
            low: 1,
            high: 0,
        }
    }

    // The sum of further bytes too.
    pub(crate) fn add(&mut self, bytes: &[u8]) {
        for byte in bytes {
            self.low = self.low.wrapping_add(u32::from(*byte)) % BASE;
            self.high = self.high.wrapping_add(self.low) % BASE;
        }
        self.count = self.count.saturating_add(bytes.len());
    }
}

impl fmt::Display for Sum {
    fn fmt<W: fmt::Write>(&self, f: &mut fmt::Formatter<W>) -> fmt::Result {
        let count = self.count;
        let sum = self.high.wrapping_mul(65_536).wrapping_add(self.low);
        write!(f, "{count} bytes, Adler-32 {sum:08x}")
    }
}
