//! Fills responses.

ghost use Rattle.std.specs.Prelude.{◌≡◌, ◌≤◌, ◌++◌, ◌∷◌, [], Err, IfErr, IfOk, IsTrue, Ok, OnErr, OnOk};
ghost use Rattle.http_header.specs.FieldName.{is_header_name};
ghost use Rattle.http_header.specs.FieldValue.{is_visible_text};
ghost use Rattle.http_server.specs.Response.{IsBlank, fields_of};
ghost use Rattle.zt_text.specs.Answers.{shown_refusal};
ghost use Rattle.zt_view.specs.Lacks.{lack_status, lack_text};
ghost use Rattle.zt_view.specs.Responses.{IsFailure, IsGuarded, IsRefusal, Tells, TellsFound, guards};

use crate::lacks::Lack;
use bytes::Bytes;
use http::{HeaderName, HeaderValue, StatusCode, header};
use http_server::Response;
use std::alloc::{AllocError, Global};
use zt_rows::Refusal;
use zt_text::print_refusal;

/// The content type of a body.
#[derive(Clone, Copy)]
pub enum Content {
    Plain,
    Html,
    Css,
    JavaScript,
}

impl Content {
    /// Returns the value of the header `Content-Type`.
    fn value(self) -> HeaderValue {
        match self {
            Content::Plain => HeaderValue::from_static("text/plain; charset=utf-8"),
            Content::Html => HeaderValue::from_static("text/html; charset=utf-8"),
            Content::Css => HeaderValue::from_static("text/css; charset=utf-8"),
            Content::JavaScript => HeaderValue::from_static("text/javascript; charset=utf-8"),
        }
    }
}

/// Fills a blank response. `start` goes into the header that names this start of the program. If an allocation fails, the
/// response is 500 without a body.
pub fn fill(
    response: &mut Response,
    start: &HeaderValue,
    status: StatusCode,
    content: Content,
    body: Bytes,
)
    requires { IsBlank response.old }
    ensures { Tells start.now.bytes status body response.new }
{
    match put(response, start, content, body) {
        Ok(()) => response.status = status,
        Err(_) => fail(response),
    }
}

/// Makes a response 500 without a body.
fn fail(response: &mut Response)
    ensures { IsFailure response.new }
{
    response.clear();
    response.status = StatusCode::INTERNAL_SERVER_ERROR;
}

/// Adds headers and body.
fn put(
    response: &mut Response,
    start: &HeaderValue,
    content: Content,
    body: Bytes,
) -> Result<(), AllocError>
    requires { fields_of response.old ≡ [] }
    ensures body { OnOk result (response.new.body.items ≡ response.old.body.items ++ body) }
    ensures guarded { OnOk result (IsGuarded start.now.bytes response.new) }
{
    put_headers(response, start, content)?;
    response.body.push(body)
}

/// Adds the headers.
fn put_headers(
    response: &mut Response,
    start: &HeaderValue,
    content: Content,
) -> Result<(), AllocError>
    requires { fields_of response.old ≡ [] }
    ensures body { response.new.body ≡ response.old.body }
    ensures guarded { OnOk result (IsGuarded start.now.bytes response.new) }
{
    response.add_header(header::CONTENT_TYPE, content.value())?;
    add(response, "zxtt-start", start.clone()?)?;
    put_guards(response)?;
    Ok(())
}

/// Adds the headers that every response has.
fn put_guards(response: &mut Response) -> Result<(), AllocError>
    ensures body { response.new.body ≡ response.old.body }
    ensures headers { OnOk result (fields_of response.new ≡ fields_of response.old ++ guards) }
{
    add_text(response, "cache-control", "no-store")?;
    add_text(
        response,
        "content-security-policy",
        "default-src 'self'; frame-ancestors 'none'",
    )?;
    add_text(response, "x-content-type-options", "nosniff")?;
    add_text(response, "cross-origin-resource-policy", "same-origin")?;
    Ok(())
}

/// Adds a header with a constant value.
fn add_text(
    response: &mut Response,
    name: &'static str,
    value: &'static str,
) -> Result<(), AllocError>
    requires name { IsTrue (is_header_name name.now) }
    requires value { IsTrue (is_visible_text value.now) }
    ensures body { response.new.body ≡ response.old.body }
    ensures headers { OnOk result (fields_of response.new ≡ fields_of response.old ++ (name.now, value.now) ∷ []) }
{
    add(response, name, HeaderValue::from_static(value))
}

/// Adds a header.
fn add(response: &mut Response, name: &'static str, value: HeaderValue) -> Result<(), AllocError>
    requires { IsTrue (is_header_name name.now) }
    ensures body { response.new.body ≡ response.old.body }
    ensures headers { OnOk result (fields_of response.new ≡ fields_of response.old ++ (name.now, value.bytes) ∷ []) }
{
    response.add_header(HeaderName::from_static(name), value)
}

/// Fills a blank response with this status, which refuses the request.
pub fn refuse(response: &mut Response, start: &HeaderValue, status: StatusCode)
    requires blank { IsBlank response.old }
    requires status { 400 ≤ status }
    ensures { IsRefusal start.now.bytes response.new }
{
    let text = match status.canonical_reason() {
        Some(reason) => reason,
        None => "",
    };
    tell(response, start, status, text);
}

/// Fills a blank response with this text.
fn tell(response: &mut Response, start: &HeaderValue, status: StatusCode, text: &'static str)
    requires { IsBlank response.old }
    ensures { Tells start.now.bytes status text.now response.new }
{
    let body = Bytes::from_static(text.as_bytes());
    fill(response, start, status, Content::Plain, body);
}

/// Fills a blank response with why a request asks for nothing.
pub fn tell_lack(response: &mut Response, start: &HeaderValue, lack: Lack)
    requires { IsBlank response.old }
    ensures { Tells start.now.bytes (lack_status lack) (lack_text lack) response.new }
{
    tell(response, start, lack.status(), lack.text());
}

/// Fills a blank response with this text and a line feed.
pub fn tell_line(alloc: Global, response: &mut Response, start: &HeaderValue, text: &[u8])
    requires { IsBlank response.old }
    ensures { Tells start.now.bytes 200 (text.now ++ 10 ∷ []) response.new }
{
    match line_of(alloc, text) {
        Ok(line) => fill_text(response, start, StatusCode::OK, line),
        Err(_) => fail(response),
    }
}

/// Appends a line feed to a copy of a text.
fn line_of(alloc: Global, text: &[u8]) -> Result<Vec<u8>, AllocError>
    ensures { IfOk result (λ line. line.items ≡ text.now ++ 10 ∷ []) }
{
    let mut line = Vec::from_slice(alloc, text)?;
    line.push(b'\n')?;
    Ok(line)
}

/// Fills a blank response with a text. If an allocation fails, the response is 500 without a body.
fn fill_text(response: &mut Response, start: &HeaderValue, status: StatusCode, text: Vec<u8>)
    requires { IsBlank response.old }
    ensures { Tells start.now.bytes status text.items response.new }
{
    match Bytes::from_vec(text) {
        Ok(body) => fill(response, start, status, Content::Plain, body),
        Err(_) => fail(response),
    }
}

/// Fills a blank response with what was found, or with status 404 and the line of the refusal. After a failed allocation the
/// response is 500 without a body.
pub fn fill_found(
    alloc: Global,
    response: &mut Response,
    start: &HeaderValue,
    found: Result<Vec<u8>, Refusal>,
)
    requires { IsBlank response.old }
    ensures found { IfOk found (λ text. TellsFound start.now.bytes (Ok text.items) response.new) }
    ensures refused { IfErr found (λ reason. TellsFound start.now.bytes (Err reason) response.new) }
{
    match found {
        Ok(text) => fill_text(response, start, StatusCode::OK, text),
        Err(Refusal::OutOfMemory) => fail(response),
        Err(refusal) => fill_refusal(alloc, response, start, StatusCode::NOT_FOUND, refusal),
    }
}

/// Fills a blank response with the answers to lines, or with status 500 and the line of the refusal that stopped them.
pub fn fill_talk(
    alloc: Global,
    response: &mut Response,
    start: &HeaderValue,
    told: Result<Vec<u8>, Refusal>,
)
    requires { IsBlank response.old }
    ensures told { IfOk told (λ text. Tells start.now.bytes 200 text.items response.new) }
    ensures stopped { OnErr told (IsFailure response.new) }
{
    match told {
        Ok(text) => fill_text(response, start, StatusCode::OK, text),
        Err(refusal) => {
            fill_refusal(
                alloc,
                response,
                start,
                StatusCode::INTERNAL_SERVER_ERROR,
                refusal,
            )
        }
    }
}

/// Fills a blank response with the line of a refusal.
fn fill_refusal(
    alloc: Global,
    response: &mut Response,
    start: &HeaderValue,
    status: StatusCode,
    refusal: Refusal,
)
    requires { IsBlank response.old }
    ensures { Tells start.now.bytes status (shown_refusal refusal) response.new }
{
    match print_refusal(alloc, refusal) {
        Ok(text) => fill_text(response, start, status, text),
        Err(_) => fail(response),
    }
}
