//! Where a line ends.
ghost use Rattle.std.specs.Prelude.{◌≡◌, ◌<◌, length, slice_index, take, IfNone, IfSome};
ghost use Rattle.std.specs.Str.Lines.{strip_carriage_return};
ghost use Rattle.haya_line_stream.specs.Turns.{HasNoFeed};

use memchr::memchr;

/// The place of the first line feed.
pub(crate) fn line_end(bytes: &[u8]) -> Option<usize>
    ensures within { IfSome result (λ at. at < length bytes.now) }
    ensures feed { IfSome result (λ at. slice_index bytes.now at ≡ 10) }
    ensures first { IfSome result (λ at. HasNoFeed (take at bytes.now)) }
    ensures none { IfNone result (HasNoFeed bytes.now) }
{
    memchr(b'\n', bytes)
}

/// The line without the carriage return at its end, if it has one.
pub(crate) fn without_return(line: &[u8]) -> &[u8]
    ensures { result.now ≡ strip_carriage_return line.now }
{
    match line.split_last() {
        Some((b'\r', front)) => front,
        _ => line,
    }
}
