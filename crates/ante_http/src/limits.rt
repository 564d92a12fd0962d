//! The limits of requests.
ghost use Rattle.std.specs.Prelude.{◌≡◌};
ghost use Rattle.ante_http.specs.Limits.{most_head_bytes, most_fields, most_length_digits, most_body_bytes};

/// The bytes of a head, its end included.
pub const MOST_HEAD_BYTES: usize = 8_192;

/// The field lines of a head.
pub const MOST_FIELDS: usize = 64;

/// The digits of a Content-Length.
pub const MOST_LENGTH_DIGITS: usize = 18;

/// The bytes of a body.
pub const MOST_BODY_BYTES: u64 = 4_194_304;

/// A law: the constants are the definitions of their names.
pub fn request_limits()
    ensures head { MOST_HEAD_BYTES ≡ most_head_bytes }
    ensures fields { MOST_FIELDS ≡ most_fields }
    ensures digits { MOST_LENGTH_DIGITS ≡ most_length_digits }
    ensures body { MOST_BODY_BYTES ≡ most_body_bytes }
{}
