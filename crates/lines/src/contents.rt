// What stands on a line.
ghost use Rattle.std.specs.Prelude.{◌≡◌};
ghost use Rattle.std.specs.Str.Lines.{strip_carriage_return};
ghost use Rattle.lines.specs.Lines.{content, ends_layout};

/// The bytes of a line without its line feed and the one carriage return before that. A last line that lacks the line
/// feed keeps all its bytes.
pub fn content_of(line: &[u8]) -> &[u8]
    ensures { result.now ≡ content line.now }
{
    match line {
        [front @ .., b'\n'] => without_return(front),
        _ => line,
    }
}

/// The bytes without the one carriage return at their end.
pub(crate) fn without_return(bytes: &[u8]) -> &[u8]
    ensures { result.now ≡ strip_carriage_return bytes.now }
{
    match bytes {
        [front @ .., b'\r'] => front,
        _ => bytes,
    }
}

/// Whether a line is the one that ends a layout: exactly `---`.
pub fn is_layout_end(line: &[u8]) -> bool
    ensures { result ≡ ends_layout line.now }
{
    content_of(line) == b"---".as_slice()
}
