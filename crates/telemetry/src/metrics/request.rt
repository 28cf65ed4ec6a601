//! HTTP requests.
use httparse::spans::{EMPTY_HEADER_SPAN, HeaderSpan, Span, parse_request};
use httparse::{Error, Status};

// How many header fields a request may have.
const MOST_HEADERS: usize = 32;

// What a client accepts that wants JSON (RFC 9110, "Accept"; RFC 8259).
const JSON: &[u8] = b"application/json";

/// What a request asks for.
#[derive(Clone, Copy, Debug, PartialEq, Eq)]
pub enum Resource {
    /// The metrics.
    Metrics,
    /// What each session does.
    Clients(Form),
    /// What each link does.
    Links(Form),
}

/// In which form rows are written.
#[derive(Clone, Copy, Debug, PartialEq, Eq)]
pub enum Form {
    /// As a table of text.
    Text,
    /// As JSON.
    Json,
}

/// The answer to a request.
#[derive(Clone, Copy, Debug, PartialEq, Eq)]
pub enum Answer {
    /// None yet: the head isn't complete.
    More,
    /// What it asks for.
    Whole(Resource),
    /// The head of the response with that.
    Head(Resource),
    /// The path is unknown.
    NotFound,
    /// The method isn't allowed.
    NotAllowed,
    /// It isn't HTTP.
    Malformed,
    /// It has too many header fields, or is too long.
    TooLarge,
}

/// Returns the answer to these bytes: the head of a request, or its beginning.
pub fn answer_to(bytes: &[u8]) -> Answer {
    let mut headers = [EMPTY_HEADER_SPAN; MOST_HEADERS];
    match parse_request(bytes, &mut headers) {
        Ok(Status::Complete(head)) => {
            let form = form_of(bytes, &headers);
            answer_of(head.method.of(bytes), head.path.of(bytes), form)
        }
        Ok(Status::Partial) => Answer::More,
        Err(Error::TooManyHeaders) => Answer::TooLarge,
        Err(_) => Answer::Malformed,
    }
}

// Returns the answer to a request with this method and target, which accepts this form.
fn answer_of(method: &[u8], target: &[u8], form: Form) -> Answer {
    let resource = match path_of(target) {
        b"/metrics" => Resource::Metrics,
        b"/clients" => Resource::Clients(form),
        b"/links" => Resource::Links(form),
        _ => return Answer::NotFound,
    };
    match method {
        b"GET" => Answer::Whole(resource),
        b"HEAD" => Answer::Head(resource),
        _ => Answer::NotAllowed,
    }
}

// Returns the target without its query.
fn path_of(target: &[u8]) -> &[u8] {
    match target.iter().position(|byte| *byte == b'?') {
        Some(place) => target.get(..place).unwrap_or(target),
        None => target,
    }
}

// Returns the form that a request with these header fields accepts: JSON if it names that.
fn form_of(bytes: &[u8], headers: &[HeaderSpan]) -> Form {
    for header in headers {
        let is_accept = part_of(bytes, header.name).eq_ignore_ascii_case(b"accept");
        if is_accept && names_json(part_of(bytes, header.value)) {
            return Form::Json;
        }
    }
    Form::Text
}

// Returns a part of a request.
fn part_of(bytes: &[u8], span: Span) -> &[u8] {
    bytes.get(span.start..span.end).unwrap_or(&[])
}

// Whether one of these media ranges, which commas separate, is JSON.
fn names_json(accepted: &[u8]) -> bool {
    accepted
        .split(|byte| *byte == b',')
        .any(|range| type_of(range).eq_ignore_ascii_case(JSON))
}

// Returns the type of a media range, without parameters and white space.
fn type_of(range: &[u8]) -> &[u8] {
    let name = match range.iter().position(|byte| *byte == b';') {
        Some(place) => range.get(..place).unwrap_or(range),
        None => range,
    };
    name.trim_ascii()
}
