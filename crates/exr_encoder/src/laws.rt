//! What holds of every complete table that is written. This call does nothing: its contract is the law.

ghost use Rattle.exr_codes.specs.Codes.{IsComplete};
ghost use Rattle.exr_encoder.specs.Spelling.{IsReadAgain};

/// The bytes of a complete table are read as the table again.
pub fn table_is_read_again(lengths: &[u8])
    requires { IsComplete lengths.now }
    ensures { IsReadAgain lengths.now }
{
    let _ = lengths;
}
