//! What the commands that run until they are stopped are asked for.
use crate::files::Files;
use crate::outputs::Written;
use answer::{seed_of, write_fault};
use command_line::{Running, SeedSource, ServeRequest, StubRequest};
use startup::Reports;
use std::alloc::{AllocError, Global};

/// Writes what a command would do, in place of doing it.
pub(crate) fn write_running(
    alloc: Global,
    files: &Files<'_>,
    running: Running<'_>,
    written: &mut Written,
) -> Result<(), AllocError> {
    match running {
        Running::Serve(request) => write_serve(alloc, files, &request, written),
        Running::Stub(request) => write_stub(alloc, request, written),
    }
}

fn write_serve(
    alloc: Global,
    files: &Files<'_>,
    request: &ServeRequest<'_>,
    written: &mut Written,
) -> Result<(), AllocError> {
    write_ports(alloc, request, &mut written.out)?;
    write_options(alloc, request, &mut written.out)?;
    write_reports(alloc, &request.reports, &mut written.out)?;
    for file in &request.files {
        let line = format!(in alloc; "would read '{file}'\n")?;
        written.out.extend_from_slice(line.as_bytes())?;
    }
    write_seed(alloc, files, request.seed, written)
}

// What each group has.
fn write_ports(
    alloc: Global,
    request: &ServeRequest<'_>,
    out: &mut Vec<u8>,
) -> Result<(), AllocError> {
    let front = request.front;
    let boot = request.boot;
    let most = request.max_message;
    let wait = request.server_wait;
    let log = request.log;
    let line = format!(in alloc;
        "would serve at port {front}, boot {boot}, messages to {most}, wait {wait}, log {log:?}\n"
    )?;
    out.extend_from_slice(line.as_bytes())
}

// What a group has only where it is asked for.
fn write_options(
    alloc: Global,
    request: &ServeRequest<'_>,
    out: &mut Vec<u8>,
) -> Result<(), AllocError> {
    if let Some(port) = request.metrics {
        let line = format!(in alloc; "would serve metrics at port {port}\n")?;
        out.extend_from_slice(line.as_bytes())?;
    }
    if request.stand_in {
        out.extend_from_slice(b"would run stand-in servers\n")?;
    }
    if request.until_eof {
        out.extend_from_slice(b"would stop at the end of input\n")?;
    }
    Ok(())
}

fn write_reports(alloc: Global, reports: &Reports, out: &mut Vec<u8>) -> Result<(), AllocError> {
    for place in 0..reports.len() {
        if let Some(report) = reports.get(place) {
            let name = report.name;
            let value = report.value;
            let line = format!(in alloc; "would report '{name}' as '{value}'\n")?;
            out.extend_from_slice(line.as_bytes())?;
        }
    }
    Ok(())
}

// The seed's digits, or why there is none.
fn write_seed(
    alloc: Global,
    files: &Files<'_>,
    source: SeedSource<'_>,
    written: &mut Written,
) -> Result<(), AllocError> {
    match seed_of(alloc, files, source) {
        Ok(seed) => {
            let digits = hex::encode(alloc, seed)?;
            let digits = digits.as_str();
            let line = format!(in alloc; "would draw from {digits}\n")?;
            written.out.extend_from_slice(line.as_bytes())
        }
        Err(fault) => {
            written.status = write_fault(alloc, &mut written.err, &fault);
            Ok(())
        }
    }
}

fn write_stub(
    alloc: Global,
    request: StubRequest,
    written: &mut Written,
) -> Result<(), AllocError> {
    let port = request.port;
    let mode = request.mode;
    let line = format!(in alloc; "would stand in at port {port}, {mode:?}\n")?;
    written.out.extend_from_slice(line.as_bytes())
}
