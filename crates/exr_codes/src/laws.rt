//! What holds of every complete table of code lengths. These calls do nothing: their contracts are the laws.

ghost use Rattle.exr_codes.specs.Codes.{IsComplete, IsPrefixFree};

/// No code of a complete table begins another one.
pub fn codes_are_prefix_free(lengths: &[u8])
    requires { IsComplete lengths.now }
    ensures { IsPrefixFree lengths.now }
{
    let _ = lengths;
}
