// A request as it came, lent in parts.
ghost use Rattle.std.specs.Prelude.{◌≡◌, ◌≤◌, ◌<◌, [], Some, codes, drop, length, map, slice_get, vec_capacity, vec_len};
ghost use Rattle.std.specs.Option.{option_copied};
ghost use Rattle.rack_types.specs.Fields.{goes_on, persists};
ghost use Rattle.rack_types.specs.Limits.{stock_limits};
ghost use Rattle.rack_types.specs.Request.{SpansFit, framed, parts_at, with_body};
ghost use Rattle.rack_types.specs.Sound.{IsSound};

use crate::Version;
use httparse::spans::{HeaderSpan, Span};
use rack_text::{list_has, same_ignoring_case};
use std::marker::Model;
use std::mem;

/// Where the parts of a head are in its bytes.
#[derive(Clone, Copy, Debug)]
pub struct Spans {
    /// Where the head text begins: behind the empty lines that were skipped. The other spans count
    /// from there.
    pub start: usize,
    pub method: Span,
    /// The path. It is empty only where the target has an authority and no path.
    pub path: Span,
    /// What stands behind the first `?`, empty where there is none.
    pub query: Span,
    /// The authority of an absolute target.
    pub authority: Option<Span>,
    pub version: Version,
    /// How many fields the head has.
    pub fields: usize,
}

/// A request: its head, and its body once it has come. It lends the parts of the head from the bytes that
/// came, and copies none of them. It keeps the room of a head, which a later request can use.
///
/// A contract sees it as its `Parts`. They are such as the rules of an environment rest on: the method is
/// a token, the path begins with `/` or is the `*` of OPTIONS, and there is one Content-Length at most,
/// which is decimal (`soundness`). What is said below of the form of another part holds of each request that
/// an intake gives.
#[derive(Drop)]
pub struct Request {
    head: Vec<u8>,
    fields: Vec<HeaderSpan>,
    spans: Spans,
    body: Vec<u8>,
    chunked: bool,
}

impl Model for Request {
    ghost use Rattle.std.specs.Prelude.{drop, vec_capacity};
    ghost use Rattle.rack_types.specs.Kept.{IsKept};
    ghost use Rattle.rack_types.specs.Request.{Parts, parts_at};

    ghost Value = { Parts };

    ghost view = { λ r. parts_at (drop r.spans.start r.head.items) r.fields.items r.spans r.body.items r.chunked };

    ghost invariant = { λ r. IsKept (vec_capacity r.head) r.head.items r.fields.items r.spans r.body.items r.chunked };
}

impl Request {
    /// The request whose head has these parts, with this body. The head has the room of any head, the
    /// fields as many places as a head may have, and the parts are such as message framing takes. It takes
    /// no memory.
    pub fn new(
        head: Vec<u8>,
        fields: Vec<HeaderSpan>,
        spans: Spans,
        body: Vec<u8>,
        chunked: bool,
    ) -> Request
        requires start { spans.start ≤ vec_len head }
        requires fit { SpansFit (drop spans.start head.items) fields.items spans }
        requires room { stock_limits.head ≤ vec_capacity head }
        requires places { vec_len fields ≡ stock_limits.lines }
        requires sound { IsSound (parts_at (drop spans.start head.items) fields.items spans body.items chunked) }
        ensures { result ≡ parts_at (drop spans.start head.items) fields.items spans body.items chunked }
    {
        Request {
            head,
            fields,
            spans,
            body,
            chunked,
        }
    }

    /// What the rules of an environment rest on holds of each request. Called where a proof needs this,
    /// it does nothing when it runs.
    pub fn soundness(&self)
        ensures { IsSound self.now }
    {
        let _ = &self.chunked;
    }

    /// The method, a token.
    pub fn method(&self) -> &[u8]
        ensures { result.now ≡ self.now.method }
    {
        self.spans.method.of(text_of(&self.head, self.spans.start))
    }

    /// The path as it came, not decoded: it begins with `/`, or is `*` alone.
    pub fn path(&self) -> &[u8]
        ensures { result.now ≡ self.now.path }
    {
        let path = self.spans.path.of(text_of(&self.head, self.spans.start));
        if path.is_empty() { b"/" } else { path }
    }

    /// What stands behind the first `?` of the target, empty where there is none.
    pub fn query(&self) -> &[u8]
        ensures { result.now ≡ self.now.query }
    {
        self.spans.query.of(text_of(&self.head, self.spans.start))
    }

    /// The authority of an absolute target: a valid host that is not empty.
    pub fn authority(&self) -> Option<&[u8]>
        ensures { option_copied result ≡ self.now.authority }
    {
        match self.spans.authority {
            Some(span) => Some(span.of(text_of(&self.head, self.spans.start))),
            None => None,
        }
    }

    /// The version that the request line names.
    pub fn version(&self) -> Version
        ensures { result ≡ self.now.version }
    {
        self.spans.version
    }

    /// How many fields the head has.
    pub fn field_count(&self) -> usize
        ensures { result ≡ length self.now.fields }
    {
        self.spans.fields
    }

    /// The name of the field at this place, a token, with its letters as they came.
    pub fn field_name(&self, i: usize) -> &[u8]
        requires { i < length self.now.fields }
        ensures { slice_get (map (λ f. f.0) self.now.fields) i ≡ Some result.now }
    {
        self.fields[i]
            .name
            .of(text_of(&self.head, self.spans.start))
    }

    /// The value of the field at this place, without the white space around it.
    pub fn field_value(&self, i: usize) -> &[u8]
        requires { i < length self.now.fields }
        ensures { slice_get (map (λ f. f.1) self.now.fields) i ≡ Some result.now }
    {
        self.fields[i]
            .value
            .of(text_of(&self.head, self.spans.start))
    }

    /// The body's bytes: of chunks, their data joined.
    pub fn body(&self) -> &[u8]
        ensures { result.now ≡ self.now.body }
    {
        &self.body
    }

    /// Whether the body came in chunks.
    pub fn chunked(&self) -> bool
        ensures { result ≡ self.now.chunked }
    {
        self.chunked
    }

    /// Gives the request this body, which came in chunks or did not.
    pub fn put_body(&mut self, body: Vec<u8>, chunked: bool)
        ensures { self.new ≡ framed body.items chunked self.old }
    {
        self.body = body;
        self.chunked = chunked;
    }

    /// Moves the body out, and leaves an empty one. It copies nothing.
    pub fn take_body(&mut self) -> Vec<u8>
        ensures body { result.items ≡ self.old.body }
        ensures left { self.new ≡ with_body [] self.old }
    {
        let alloc = *self.body.allocator();
        mem::replace(&mut self.body, Vec::new(alloc))
    }

    /// Room for a head and for its fields, for a further request.
    pub fn into_room(self) -> (Vec<u8>, Vec<HeaderSpan>)
        ensures room { stock_limits.head ≤ vec_capacity result.0 }
        ensures places { vec_len result.1 ≡ stock_limits.lines }
    {
        (self.head, self.fields)
    }

    /// Whether the connection may go on behind this request (RFC 9112, section 9.3): in HTTP/1.1
    /// unless a Connection field has `close`, in HTTP/1.0 only where one has `keep-alive` and none
    /// has `close`.
    pub fn persists(&self) -> bool
        ensures { result ≡ persists self.now }
    {
        let mut close = false;
        let mut keep_alive = false;
        for i in 0..self.field_count() {
            if same_ignoring_case(self.field_name(i), b"connection") {
                let value = self.field_value(i);
                close |= list_has(value, b"close");
                keep_alive |= list_has(value, b"keep-alive");
            }
        }
        goes_on(self.version(), close, keep_alive)
    }
}

// Whether a connection of this version goes on, by what its Connection fields ask.
fn goes_on(version: Version, close: bool, keep_alive: bool) -> bool
    ensures { result ≡ goes_on version close keep_alive }
{
    match version {
        Version::Http11 => !close,
        Version::Http10 => keep_alive && !close,
    }
}

// The head text, which begins behind the empty lines that were skipped.
fn text_of(head: &[u8], start: usize) -> &[u8]
    requires { start ≤ length head.now }
    ensures { result.now ≡ drop start head.now }
{
    &head[start..]
}

// A request goes into a connection, which may go from thread to thread. That it is Send is proved here,
// where this call is.
fn request_is_send() {
    is_send::<Request>()
}

fn is_send<T: Send>() {}
