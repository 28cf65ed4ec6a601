//! Metrics after sessions whose numbers are worked out by hand, and the answers to slow or malformed
//! requests.
use crate::client::{Cancel, Client, Until};
use crate::group::{ANY_PORT, Running, start_server};
use crate::host::TestHost;
use crate::messages::{BEGIN, COMMIT, HI, IDLE, OPEN, PARSE_NAMED, UNKNOWN_KEY, UNSUPPORTED};
use crate::reported::LOGIN;
use crate::scripted::{Script, start};
use std::net::TcpListener;
use std::test::Fail;
use std::thread;
use std::time::Duration;
use stub_server::Mode;

// A server that answers two queries.
const SCRIPTS: &[Script] = &[Script {
    login: LOGIN,
    answers: &[
        b"C\0\0\0\x08ONE\0Z\0\0\0\x05I",
        b"C\0\0\0\x08ONE\0Z\0\0\0\x05I",
    ],
}];

const ONE: &[u8] = b"C\0\0\0\x08ONE\0";

// A request for the metrics.
const GET: &[u8] = b"GET /metrics HTTP/1.1\r\nHost: here\r\n\r\n";

// No client waits.
const NO_WAIT: &str = "pgpeer_oldest_wait_seconds{node=\"1\",database=\"shop\"} 0.000000";

// How often the metrics are read before a test gives up. They are made once a second.
const READS: u32 = 20;

// How many milliseconds pass until they are made anew.
const AGE: u64 = 1_100;

// What comes back for a request.
pub(crate) fn ask<R: TestHost>(rt: &R, port: u16, request: &[u8]) -> Result<Vec<u8>, Fail> {
    let mut client = Client::connect(rt, port)?;
    client.send(request)?;
    client.read(rt, Until::End, None)
}

// Whether an answer has this line.
fn has_line(answer: &[u8], line: &str) -> bool {
    answer
        .split(|byte| *byte == b'\n')
        .any(|found| found == line.as_bytes())
}

// The metrics have these lines by now, or will have.
fn expect_lines<R: TestHost>(rt: &R, port: u16, lines: &[&str]) -> Result<(), Fail> {
    for _ in 0..READS {
        let answer = ask(rt, port, GET)?;
        assert!(rt; answer.starts_with(b"HTTP/1.1 200 OK\r\n"));
        if lines.iter().all(|line| has_line(answer.as_slice(), line)) {
            return Ok(());
        }
        thread::sleep(rt, Duration::from_millis(AGE));
    }
    Err(Fail::from("the metrics don't have these lines"))
}

// A client that runs two queries. `one` is a Query of 9 bytes: the type, the length, three letters
// and a zero byte. A login has 103 bytes: AuthenticationOk 9, three ParameterStatus 23, 26 and 26,
// BackendKeyData 13 and ReadyForQuery 6. An answer has 15: CommandComplete 9 and ReadyForQuery. The
// client waits until its link is opened, and for nothing else.
#[test]
fn transactions_and_bytes(rt: HostRuntime) -> Result<(), Fail> {
    let server = start(&rt, TcpListener::bind(&rt, ANY_PORT)?, SCRIPTS)?;
    let group = Running::start_measured(&rt, &[server], &[&[]])?;
    let (mut client, _) = Client::log_in(&rt, group.node(1)?)?;
    client.expect_answer(&rt, "one", &[ONE, IDLE])?;
    client.expect_answer(&rt, "two", &[ONE, IDLE])?;
    let lines = [
        "pgpeer_build_info{version=\"0\"} 1",
        "pgpeer_clients_max{node=\"1\"} 4",
        "pgpeer_links_max{node=\"1\",database=\"shop\"} 1",
        "pgpeer_transactions_total{node=\"1\",database=\"shop\"} 2",
        "pgpeer_received_bytes_total{node=\"1\",database=\"shop\"} 18",
        "pgpeer_sent_bytes_total{node=\"1\",database=\"shop\"} 133",
        "pgpeer_clients{node=\"1\",database=\"shop\",state=\"none\"} 1",
        "pgpeer_clients{node=\"1\",database=\"shop\",state=\"link\"} 0",
        "pgpeer_links{node=\"1\",database=\"shop\",place=\"idle\"} 1",
        "pgpeer_links{node=\"1\",database=\"shop\",place=\"held\"} 0",
        "pgpeer_wait_seconds_count{node=\"1\",database=\"shop\"} 1",
        "pgpeer_wait_seconds_count{node=\"1\"} 0",
        "pgpeer_logins_total{node=\"1\",database=\"shop\"} 1",
        "pgpeer_transaction_seconds_count{node=\"1\",database=\"shop\"} 2",
        "pgpeer_link_open_seconds_count{node=\"1\",database=\"shop\"} 1",
        NO_WAIT,
        "# TYPE process_start_time_seconds gauge",
        "# TYPE process_cpu_seconds_total counter",
        "# TYPE process_max_fds gauge",
        "pgpeer_log_events_total{level=\"warn\",event=\"link_lost\"} 0",
    ];
    expect_lines(&rt, group.metrics(), &lines)
}

// While one client keeps the only link, another waits for it for 1,100 milliseconds at least: its
// wait isn't among those of up to a second, where the one is for which the link was opened.
#[test]
fn a_wait_is_measured(rt: HostRuntime) -> Result<(), Fail> {
    let server = start_server(&rt, TcpListener::bind(&rt, ANY_PORT)?, Mode::Honest)?;
    let group = Running::start_measured(&rt, &[server], &[&[]])?;
    let port = group.node(1)?;
    let (mut keeper, _) = Client::log_in(&rt, port)?;
    keeper.expect_answer(&rt, "begin", &[BEGIN, OPEN])?;
    let (mut client, _) = Client::log_in(&rt, port)?;
    client.ask(&rt, "echo hi")?;
    thread::sleep(&rt, Duration::from_millis(1_100));
    let waiting = [
        "pgpeer_clients{node=\"1\",database=\"shop\",state=\"waiting\"} 1",
        "pgpeer_clients{node=\"1\",database=\"shop\",state=\"link\"} 1",
        "pgpeer_links{node=\"1\",database=\"shop\",place=\"held\"} 1",
    ];
    expect_lines(&rt, group.metrics(), &waiting)?;
    let answer = ask(&rt, group.metrics(), GET)?;
    assert!(&rt; !has_line(answer.as_slice(), NO_WAIT));
    keeper.expect_answer(&rt, "commit", &[COMMIT, IDLE])?;
    client.expect(&rt, &[HI, IDLE], None)?;
    let ended = [
        "pgpeer_transactions_total{node=\"1\",database=\"shop\"} 2",
        "pgpeer_wait_seconds_bucket{node=\"1\",database=\"shop\",le=\"1\"} 1",
        "pgpeer_wait_seconds_bucket{node=\"1\",database=\"shop\",le=\"+Inf\"} 2",
        "pgpeer_wait_seconds_count{node=\"1\",database=\"shop\"} 2",
        NO_WAIT,
    ];
    expect_lines(&rt, group.metrics(), &ended)
}

// The end of a cancel request, and why it was refused, are events of the log of the group that
// serves it.
#[test]
fn the_end_of_a_cancel_is_counted(rt: HostRuntime) -> Result<(), Fail> {
    let server = start_server(&rt, TcpListener::bind(&rt, ANY_PORT)?, Mode::Honest)?;
    let group = Running::start_measured(&rt, &[server], &[&[]])?;
    let mut requester = Cancel::new(&rt, group.node(1)?, UNKNOWN_KEY)?.send(&rt)?;
    requester.expect_end(&rt, b"")?;
    let lines = [
        "pgpeer_cancels_refused_total{node=\"1\",reason=\"unknown\"} 1",
        "pgpeer_log_events_total{level=\"info\",event=\"cancel_refused\"} 1",
        "pgpeer_log_events_total{level=\"notice\",event=\"cancel_ended\"} 1",
    ];
    expect_lines(&rt, group.metrics(), &lines)
}

// So is the end of a session whose message was refused.
#[test]
fn the_end_of_a_session_is_counted(rt: HostRuntime) -> Result<(), Fail> {
    let server = start(&rt, TcpListener::bind(&rt, ANY_PORT)?, &[])?;
    let group = Running::start_measured(&rt, &[server], &[&[]])?;
    let (mut client, _) = Client::log_in(&rt, group.node(1)?)?;
    client.send(PARSE_NAMED)?;
    client.expect_end(&rt, UNSUPPORTED)?;
    let lines = [
        "pgpeer_log_events_total{level=\"warn\",event=\"session_ended\"} 1",
        "pgpeer_sessions_ended_total{node=\"1\",database=\"shop\",code=\"0A000\",refused=\"named_statement\"} 1",
        "pgpeer_sessions_ended_total{node=\"1\",database=\"shop\",code=\"none\",refused=\"none\"} 0",
    ];
    expect_lines(&rt, group.metrics(), &lines)
}

// Requests, and how their answers begin.
const REQUESTS: [(&[u8], &[u8]); 10] = [
    (b"GET /metrics?a=b HTTP/1.0\r\n\r\n", b"HTTP/1.1 200 OK\r\n"),
    (b"HEAD /metrics HTTP/1.1\r\n\r\n", b"HTTP/1.1 200 OK\r\n"),
    (b"GET / HTTP/1.1\r\n\r\n", b"HTTP/1.1 404 Not Found\r\n"),
    (b"HEAD /clients HTTP/1.1\r\n\r\n", b"HTTP/1.1 200 OK\r\n"),
    (b"HEAD /links HTTP/1.1\r\n\r\n", b"HTTP/1.1 200 OK\r\n"),
    (
        b"POST /clients HTTP/1.1\r\n\r\n",
        b"HTTP/1.1 405 Method Not Allowed\r\n",
    ),
    (
        b"GET /metricsx HTTP/1.1\r\n\r\n",
        b"HTTP/1.1 404 Not Found\r\n",
    ),
    (
        b"POST /metrics HTTP/1.1\r\n\r\n",
        b"HTTP/1.1 405 Method Not Allowed\r\n",
    ),
    (
        b"\0\0\0\x08\x04\xd2\x16\x2f",
        b"HTTP/1.1 400 Bad Request\r\n",
    ),
    (
        b"GET /metrics HTTP/1.1\r\nA B: c\r\n\r\n",
        b"HTTP/1.1 400 Bad Request\r\n",
    ),
];

#[test]
fn other_requests_are_refused(rt: HostRuntime) -> Result<(), Fail> {
    let server = start(&rt, TcpListener::bind(&rt, ANY_PORT)?, SCRIPTS)?;
    let group = Running::start_measured(&rt, &[server], &[&[]])?;
    for (request, expected) in REQUESTS {
        let answer = ask(&rt, group.metrics(), request)?;
        assert!(rt; answer.starts_with(expected));
    }
    Ok(())
}

// Eight clients that say nothing, or only half of a request, hold nothing: each is closed, the
// metrics are read all the same, and a client is served meanwhile.
#[test]
fn silent_readers_are_closed(rt: HostRuntime) -> Result<(), Fail> {
    let server = start(&rt, TcpListener::bind(&rt, ANY_PORT)?, SCRIPTS)?;
    let group = Running::start_measured(&rt, &[server], &[&[]])?;
    let mut silent = Vec::new(rt.alloc());
    for place in 0..8_usize {
        let mut client = Client::connect(&rt, group.metrics())?;
        if place % 2 == 0 {
            client.send(b"GET /metrics HTTP/1.1\r\n")?;
        }
        silent.push(client)?;
    }
    let (mut client, _) = Client::log_in(&rt, group.node(1)?)?;
    client.expect_answer(&rt, "one", &[ONE, IDLE])?;
    expect_lines(
        &rt,
        group.metrics(),
        &["pgpeer_transactions_total{node=\"1\",database=\"shop\"} 1"],
    )?;
    for client in &mut silent {
        client.expect_end(&rt, b"")?;
    }
    Ok(())
}
