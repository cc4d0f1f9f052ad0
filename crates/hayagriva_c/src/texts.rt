//! Bytes that a handle owns, as C sees them.
ghost use Rattle.hayagriva_c.specs.Texts.{TextIs};

/// Bytes that a handle owns.
#[repr(C)]
#[derive(Drop)]
pub struct Text {
    pub at: *const u8,
    pub len: usize,
}

/// Where the bytes are.
pub fn text_of(bytes: &Vec<u8>) -> Text
    ensures { TextIs bytes.now result }
{
    Text {
        at: bytes.as_ptr(),
        len: bytes.len(),
    }
}
