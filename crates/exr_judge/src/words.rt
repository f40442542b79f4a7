//! Numbers in the value of an attribute, low byte first.

ghost use Rattle.std.specs.Prelude.{◌≡◌, ◌<◌, ◌^◌, ◌+◌, slice_index};
ghost use Rattle.exr_judge.specs.Words.{word_of, int_of};

/// The byte at an offset, 0 past the end.
pub(crate) fn byte(value: &[u8], at: usize) -> u8
    ensures { result ≡ slice_index value.now at }
{
    if at < value.len() { value[at] } else { 0 }
}

/// The unsigned number of four bytes at an offset.
pub(crate) fn word(value: &[u8], at: usize) -> u32
    requires { at < 2 ^ 32 }
    ensures { result ≡ word_of value.now at }
{
    u32::from_le_bytes([
        byte(value, at),
        byte(value, at + 1),
        byte(value, at + 2),
        byte(value, at + 3),
    ])
}

/// The signed number of four bytes at an offset.
pub(crate) fn int(value: &[u8], at: usize) -> i32
    requires { at < 2 ^ 32 }
    ensures { result ≡ int_of value.now at }
{
    word(value, at).cast_signed()
}
