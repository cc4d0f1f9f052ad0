//! White space, as JSON has it.
ghost use Rattle.std.specs.Prelude.{◌≡◌, ◌⊎◌, ◌-◌, ◌≤◌, ◌↔◌, IsFalse, IsTrue, drop, length};
ghost use Rattle.std.specs.Prelude.{slice_index, take};
ghost use Rattle.json.specs.Word.{is_space};
ghost use Rattle.haya_slices.specs.Layout.{IsWhite};

// Whether a byte is white space.
fn is_space(byte: u8) -> bool
    ensures { result ≡ is_space byte }
{
    matches!(byte, b' ' | b'\t' | b'\n' | b'\r')
}

/// How many bytes of white space are in front.
pub fn white_len(bytes: &[u8]) -> usize
    ensures within { result ≤ length bytes.now }
    ensures white { IsWhite (take result bytes.now) }
{
    let mut len = 0;
    'bytes: while len < bytes.len() {
        if !is_space(bytes[len]) {
            return len;
        }
        len += 1;
    }
    len
}

/// How many bytes there are without the white space behind them.
pub(crate) fn trimmed_len(bytes: &[u8]) -> usize
    ensures within { result ≤ length bytes.now }
    ensures white { IsWhite (drop result bytes.now) }
    ensures tight { (result ≡ 0) ⊎ IsFalse (is_space (slice_index bytes.now (result - 1))) }
{
    let mut len = bytes.len();
    'bytes: while len > 0 {
        if !is_space(bytes[len - 1]) {
            return len;
        }
        len -= 1;
    }
    len
}
