use ante_pack::{Bytes, Name};

/// A JSON value that is no list and no object, borrowed from what it is made of.
#[derive(Debug, Drop)]
pub enum Scalar<'a> {
    Null,
    Bool(bool),
    Number(u64),
    Signed(i64),
    /// A text in UTF-8.
    Text(&'a [u8]),
    /// Bytes as lower-case hex.
    Hex(&'a [u8]),
    /// The same of bytes in a list of their own.
    Bytes(&'a Bytes),
    Name(Name),
}

/// A member of an object: its key and its value.
#[derive(Debug, Drop)]
pub struct Member<'a>(pub &'a [u8], pub Scalar<'a>);
