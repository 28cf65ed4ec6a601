//! A client of a node's console.
use crate::client::{Client, TURNS, Until};
use crate::host::TestHost;
use crate::messages::{CONSOLE_STARTUP, GREETING, IDLE, put_description, put_end, put_row};
use std::alloc::{AllocError, Global};
use std::test::Fail;

// How often a console is asked before a test gives up. Each answer takes a few turns.
const ROUNDS: u32 = TURNS / 4;

// The counts of `SHOW CANCELS`, in their order.
const KINDS: [&str; 8] = [
    "spent",
    "unknown",
    "no_peer",
    "no_link",
    "forwarded",
    "sent",
    "ended",
    "failed",
];

#[derive(Drop)]
pub(crate) struct Console {
    client: Client,
}

impl Console {
    // A client that is logged in. It gets no key.
    pub(crate) fn log_in<R: TestHost>(rt: &R, port: u16) -> Result<Console, Fail> {
        let mut client = Client::connect(rt, port)?;
        client.send(CONSOLE_STARTUP)?;
        client.expect(rt, &[GREETING, IDLE], None)?;
        Ok(Console { client })
    }

    // The clients have these rows by now, or will have.
    pub(crate) fn expect_clients<R: TestHost>(
        &mut self,
        rt: &R,
        rows: &[&[&str]],
    ) -> Result<(), Fail> {
        let expected = table(rt.alloc(), &["slot", "database", "state"], rows)?;
        self.expect(rt, "SHOW CLIENTS", expected.as_slice())
    }

    // The links have these rows by now, or will have.
    pub(crate) fn expect_links<R: TestHost>(
        &mut self,
        rt: &R,
        rows: &[&[&str]],
    ) -> Result<(), Fail> {
        let names = &["link", "database", "place", "tickets", "condemned"];
        let expected = table(rt.alloc(), names, rows)?;
        self.expect(rt, "SHOW LINKS", expected.as_slice())
    }

    // These counts of cancel requests are so, by now or later, and all others are 0.
    pub(crate) fn expect_cancels<R: TestHost>(
        &mut self,
        rt: &R,
        counts: &[(&str, &str)],
    ) -> Result<(), Fail> {
        let expected = cancels(rt.alloc(), counts)?;
        self.expect(rt, "SHOW CANCELS", expected.as_slice())
    }

    // Asks until the answer is this. It is the last one at the latest.
    fn expect<R: TestHost>(&mut self, rt: &R, query: &str, expected: &[u8]) -> Result<(), Fail> {
        for _round in 0..ROUNDS {
            if self.shown(rt, query)?.as_slice() == expected {
                return Ok(());
            }
        }
        assert_eq!(rt; self.shown(rt, query)?.as_slice(), expected);
        Ok(())
    }

    // The answer to a query.
    fn shown<R: TestHost>(&mut self, rt: &R, query: &str) -> Result<Vec<u8>, Fail> {
        self.client.ask(rt, query)?;
        self.client.read(rt, Until::Bytes(IDLE), None)
    }
}

// The console's answer: columns with these names, and rows of these values.
fn table(alloc: Global, names: &[&str], rows: &[&[&str]]) -> Result<Vec<u8>, AllocError> {
    let mut out = Vec::new(alloc);
    put_description(alloc, &mut out, names)?;
    for values in rows {
        put_row(alloc, &mut out, values)?;
    }
    put_end(&mut out)?;
    Ok(out)
}

// The answer to `SHOW CANCELS` with these counts, and 0 else.
fn cancels(alloc: Global, counts: &[(&str, &str)]) -> Result<Vec<u8>, AllocError> {
    let mut out = Vec::new(alloc);
    put_description(alloc, &mut out, &["kind", "count"])?;
    for kind in KINDS {
        put_row(alloc, &mut out, &[kind, count_of(counts, kind)])?;
    }
    put_end(&mut out)?;
    Ok(out)
}

fn count_of<'a>(counts: &[(&str, &'a str)], kind: &str) -> &'a str {
    for (name, count) in counts {
        if *name == kind {
            return count;
        }
    }
    "0"
}
