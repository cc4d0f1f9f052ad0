//! Where an entry begins.
ghost use Rattle.std.specs.Prelude.{◌≡◌};
ghost use Rattle.haya_line_slices.specs.EntryLines.{begins_entry};

/// Whether bytes begin with the depth of an entry of the library, which is zero.
pub(crate) fn begins_entry(bytes: &[u8]) -> bool
    ensures { result ≡ begins_entry bytes.now }
{
    bytes.starts_with(b"0\t") || bytes.starts_with(b"00\t") || bytes.starts_with(b"000\t")
}
