//! The parts of a message that are read whole.
ghost use Rattle.std.specs.Prelude.{◌≡◌, length};
ghost use Rattle.endpoint_http.specs.Parsed.{IsParsed, refusal_of, status_of, size_of, is_post};
ghost use Rattle.endpoint_http.specs.declared.part.Part.TheVariants.{Response as IsResponse, Request as IsRequest, ChunkLine as IsLine, Trailer as IsTrailer};

use crate::HttpFault;
use httparse::spans::{HeaderSpan, parse_headers, parse_request, parse_response};
use httparse::{Error, Status, parse_chunk_size};

/// The most bytes of one part (a choice; RFC 9112 section 3 asks for 8,000 at least).
pub(crate) const LONGEST: usize = 16384;

/// The most header lines of one part.
pub(crate) const LINES: usize = 64;

/// A part of a message that is read whole.
#[derive(Clone, Copy, Debug, PartialEq, Eq)]
pub enum Part {
    /// The head of a response.
    Response,
    /// The head of a request.
    Request,
    /// The line in front of a chunk.
    ChunkLine,
    /// What stands behind the last chunk's line: header lines and an empty line.
    Trailer,
}

/// What a part begins with.
#[derive(Clone, Copy, Debug, PartialEq, Eq)]
pub enum Start {
    /// The status of a response.
    Status(u16),
    /// The method `POST`.
    Post,
    /// Another method.
    OtherMethod,
    /// The number of bytes of a chunk.
    Size(u64),
    /// Nothing: a trailer section has no start line.
    Nothing,
}

impl Start {
    /// The status of a response; 0 elsewhere.
    pub(crate) fn status(self) -> u16
        ensures { result ≡ status_of self }
    {
        match self {
            Start::Status(code) => code,
            Start::Post => 0,
            Start::OtherMethod => 0,
            Start::Size(_) => 0,
            Start::Nothing => 0,
        }
    }

    /// The number of bytes of a chunk; 0 elsewhere.
    pub(crate) fn size(self) -> u64
        ensures { result ≡ size_of self }
    {
        match self {
            Start::Status(_) => 0,
            Start::Post => 0,
            Start::OtherMethod => 0,
            Start::Size(size) => size,
            Start::Nothing => 0,
        }
    }

    /// Whether it is the method `POST`.
    pub(crate) fn is_post(self) -> bool
        ensures { result ≡ is_post self }
    {
        match self {
            Start::Status(_) => false,
            Start::Post => true,
            Start::OtherMethod => false,
            Start::Size(_) => false,
            Start::Nothing => false,
        }
    }
}

/// A part that was found at the front of bytes.
#[derive(Clone, Copy, Debug)]
pub struct Found {
    /// How many bytes it has.
    pub len: usize,
    pub start: Start,
    /// How many header lines it has.
    pub headers: usize,
}

/// What a parse says of the front of bytes.
#[derive(Clone, Copy, Debug)]
pub enum Parsed {
    /// The part stands there.
    Whole(Found),
    /// It is not there yet.
    Unfinished,
    /// It will not be, or has too many header lines.
    Refused,
}

impl Part {
    /// The fault of bytes that are no such part.
    pub(crate) fn refusal(self) -> HttpFault
        ensures { result ≡ refusal_of self }
    {
        match self {
            Part::Response => HttpFault::Head,
            Part::Request => HttpFault::Head,
            Part::ChunkLine => HttpFault::Chunk,
            Part::Trailer => HttpFault::Head,
        }
    }

    /// Parses the front of the bytes, and writes where its header lines are to the front of `headers`.
    pub(crate) fn parse(self, bytes: &[u8], headers: &mut [HeaderSpan]) -> Parsed
        requires room { length headers.old ≡ 64 }
        ensures room { length headers.new ≡ 64 }
        ensures parsed { IsParsed self bytes.now headers.new result }
    {
        match self {
            Part::Response => response_at(bytes, headers),
            Part::Request => request_at(bytes, headers),
            Part::ChunkLine => chunk_line_at(bytes, headers),
            Part::Trailer => trailer_at(bytes, headers),
        }
    }
}

fn response_at(bytes: &[u8], headers: &mut [HeaderSpan]) -> Parsed
    requires room { length headers.old ≡ 64 }
    ensures room { length headers.new ≡ 64 }
    ensures parsed { IsParsed IsResponse bytes.now headers.new result }
{
    match parse_response(bytes, headers) {
        Ok(Status::Complete(head)) => Parsed::Whole(Found {
            len: head.len,
            start: Start::Status(head.code),
            headers: head.headers,
        }),
        Ok(Status::Partial) => Parsed::Unfinished,
        Err(Error::TooManyHeaders) => Parsed::Refused,
        Err(_) => Parsed::Refused,
    }
}

fn request_at(bytes: &[u8], headers: &mut [HeaderSpan]) -> Parsed
    requires room { length headers.old ≡ 64 }
    ensures room { length headers.new ≡ 64 }
    ensures parsed { IsParsed IsRequest bytes.now headers.new result }
{
    match parse_request(bytes, headers) {
        Ok(Status::Complete(head)) => {
            let start = if head.method.of(bytes) == b"POST".as_slice() {
                Start::Post
            } else {
                Start::OtherMethod
            };
            Parsed::Whole(Found {
                len: head.len,
                start,
                headers: head.headers,
            })
        }
        Ok(Status::Partial) => Parsed::Unfinished,
        Err(Error::TooManyHeaders) => Parsed::Refused,
        Err(_) => Parsed::Refused,
    }
}

fn chunk_line_at(bytes: &[u8], headers: &mut [HeaderSpan]) -> Parsed
    requires room { length headers.old ≡ 64 }
    ensures room { length headers.new ≡ 64 }
    ensures parsed { IsParsed IsLine bytes.now headers.new result }
{
    match parse_chunk_size(bytes) {
        Ok(Status::Complete((len, size))) => Parsed::Whole(Found {
            len,
            start: Start::Size(size),
            headers: 0,
        }),
        Ok(Status::Partial) => Parsed::Unfinished,
        Err(_) => Parsed::Refused,
    }
}

fn trailer_at(bytes: &[u8], headers: &mut [HeaderSpan]) -> Parsed
    requires room { length headers.old ≡ 64 }
    ensures room { length headers.new ≡ 64 }
    ensures parsed { IsParsed IsTrailer bytes.now headers.new result }
{
    match parse_headers(bytes, headers) {
        Ok(Status::Complete((len, count))) => Parsed::Whole(Found {
            len,
            start: Start::Nothing,
            headers: count,
        }),
        Ok(Status::Partial) => Parsed::Unfinished,
        Err(Error::TooManyHeaders) => Parsed::Refused,
        Err(_) => Parsed::Refused,
    }
}
