//! Parts of bytes, up to the first of some kind.

ghost use Rattle.std.specs.Prelude.{◌≡◌, ◌+◌, ◌<◌, ◌≤◌, ℕ, false, get_or, length, take, drop, unwrap_or, position, not};
ghost use Rattle.std.specs.Option.{ForSome};
ghost use Rattle.std.specs.List.{before_first, after_first, position_or_len};
ghost use Rattle.tet_text.specs.Contents.{ends_content};
ghost use Rattle.tet_text.specs.Lines.{is_line_feed, is_blank, is_no_blank, content_of, without_blanks};
ghost use Rattle.tet_text.specs.Decimals.{is_point, is_exponent_mark, mantissa_of, exponent_of};

/// The bytes before that place, and those after it; all and none where there is no such place.
pub(crate) fn cut(bytes: &[u8], at: Option<usize>) -> (&[u8], &[u8])
    requires { ForSome at (λ place. place < length bytes.now) }
    ensures before { result.0.now ≡ take (unwrap_or at (length bytes.now)) bytes.now }
    ensures after { result.1.now ≡ drop (unwrap_or at (length bytes.now) + 1) bytes.now }
{
    match at {
        Some(at) => (&bytes[..at], &bytes[at + 1..]),
        None => (bytes, &[]),
    }
}

pub(crate) fn is_blank(byte: u8) -> bool
    ensures { result ≡ is_blank byte }
{
    byte == b' ' || byte == b'\t' || byte == b'\r'
}

fn line_feed_place(bytes: &[u8]) -> Option<usize>
    ensures { result ≡ position is_line_feed bytes.now }
{
    bytes.iter().position(|b| *b == b'\n')
}

fn ends_content(byte: u8) -> bool
    ensures { result ≡ ends_content byte }
{
    byte == b'\n' || byte == b'#'
}

/// The first place from `from` on whose byte is at most `#`, as no digit and no letter is.
fn skip_high(bytes: &[u8], from: usize) -> usize
    requires { from ≤ length bytes.now }
    ensures low { from ≤ result }
    ensures high { result ≤ length bytes.now }
    ensures none { (k : ℕ) → from ≤ k → k < result → ends_content (get_or bytes.now k 0) ≡ false }
{
    let mut at = from;
    while at < bytes.len() && bytes[at] > b'#' {
        at += 1;
    }
    at
}

fn content_end(bytes: &[u8]) -> usize
    ensures place { result ≡ position_or_len ends_content bytes.now }
    ensures within { result ≤ length bytes.now }
{
    let mut at = skip_high(bytes, 0);
    while at < bytes.len() && !ends_content(bytes[at]) {
        at = skip_high(bytes, at + 1);
    }
    at
}

fn blank_place(bytes: &[u8]) -> Option<usize>
    ensures { result ≡ position is_blank bytes.now }
{
    bytes.iter().position(|b| is_blank(*b))
}

fn field_place(bytes: &[u8]) -> Option<usize>
    ensures { result ≡ position is_no_blank bytes.now }
{
    bytes.iter().position(|b| !is_blank(*b))
}

/// The first line, without its line feed, and the bytes after that.
pub(crate) fn cut_line(bytes: &[u8]) -> (&[u8], &[u8])
    ensures before { result.0.now ≡ before_first is_line_feed bytes.now }
    ensures after { result.1.now ≡ after_first is_line_feed bytes.now }
{
    cut(bytes, line_feed_place(bytes))
}

/// The content of the first line, and the bytes after that line.
pub(crate) fn cut_content(bytes: &[u8]) -> (&[u8], &[u8])
    ensures content { result.0.now ≡ content_of (before_first is_line_feed bytes.now) }
    ensures after { result.1.now ≡ after_first is_line_feed bytes.now }
{
    let end = content_end(bytes);
    if end == bytes.len() {
        return (bytes, &[]);
    }
    let (content, rest) = (&bytes[..end], &bytes[end + 1..]);
    if bytes[end] == b'#' {
        return (content, cut_line(rest).1);
    }
    (content, rest)
}

/// The first field, and the bytes after the blank that ends it.
pub(crate) fn cut_field(bytes: &[u8]) -> (&[u8], &[u8])
    ensures before { result.0.now ≡ before_first is_blank bytes.now }
    ensures after { result.1.now ≡ after_first is_blank bytes.now }
{
    cut(bytes, blank_place(bytes))
}

/// The bytes from the first one on that is no blank.
pub(crate) fn skip_blanks(bytes: &[u8]) -> &[u8]
    ensures { result.now ≡ without_blanks bytes.now }
{
    match field_place(bytes) {
        Some(at) => &bytes[at..],
        None => &[],
    }
}

fn point_place(mantissa: &[u8]) -> Option<usize>
    ensures { result ≡ position is_point mantissa.now }
{
    mantissa.iter().position(|b| *b == b'.')
}

fn exponent_place(unsigned: &[u8]) -> Option<usize>
    ensures { result ≡ position is_exponent_mark unsigned.now }
{
    unsigned.iter().position(|b| *b == b'e' || *b == b'E')
}

/// The bytes before the first point, and those after it.
pub(crate) fn cut_point(mantissa: &[u8]) -> (&[u8], &[u8])
    ensures before { result.0.now ≡ before_first is_point mantissa.now }
    ensures after { result.1.now ≡ after_first is_point mantissa.now }
{
    cut(mantissa, point_place(mantissa))
}

/// The bytes before the exponent, and the exponent; `0` where there is none.
pub(crate) fn cut_exponent(unsigned: &[u8]) -> (&[u8], &[u8])
    ensures mantissa { result.0.now ≡ mantissa_of unsigned.now }
    ensures exponent { result.1.now ≡ exponent_of unsigned.now }
{
    match exponent_place(unsigned) {
        Some(at) => (&unsigned[..at], &unsigned[at + 1..]),
        None => (unsigned, b"0"),
    }
}
