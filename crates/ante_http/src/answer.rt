use httparse::spans::Span;

/// Why bytes are refused, in the order in which it is looked for.
#[derive(Clone, Copy, Debug, PartialEq, Eq)]
pub enum HeadKind {
    /// As many bytes as a head may have are there, and hold no end of one.
    HeadLong,
    /// The bytes up to the end aren't a head, or have too many field lines.
    Head,
    /// The method is neither GET nor POST.
    Method,
    /// There is a Transfer-Encoding.
    Encoding,
    /// A Content-Length isn't 1 to 18 decimal digits, or two differ.
    Length,
    /// The Content-Length is more than a body may have.
    TooLarge { length: u64 },
}

/// Where the parts of a request stand, in bytes from its first one.
#[derive(Clone, Copy, Debug, PartialEq, Eq)]
pub struct RequestSpan {
    /// The request target (RFC 9112, section 3.2), whole.
    pub target: Span,
    pub body: Span,
    /// Whether the link closes after the reply.
    pub close: bool,
}

/// What bytes begin with.
#[derive(Clone, Copy, Debug, PartialEq, Eq)]
pub enum CutAnswer {
    /// More bytes are needed.
    Need,
    /// The first `length` bytes are a request.
    Request { request: RequestSpan, length: usize },
    /// No request can come. `length` counts the bytes through the head's end, or as many as a head may have.
    Bad { kind: HeadKind, length: usize },
}
