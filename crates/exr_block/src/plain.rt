//! Which channels B44 and B44A take.

ghost use Rattle.std.specs.Prelude.{◌≡◌, true, All};
ghost use Rattle.exr_b44.specs.Block.{IsPlain};
ghost use Rattle.exr_block.specs.Content.{is_plain, are_plain};

use exr_base::{Channel, Kind};

/// Whether a channel's samples are not HALF, or its pLinear byte is 0.
fn is_plain(channel: &Channel) -> bool
    ensures { result ≡ is_plain channel.now.kind channel.now.linear }
{
    match channel.kind {
        Kind::Half => channel.linear == 0,
        _ => true,
    }
}

/// Whether each channel is so.
pub(crate) fn are_plain(channels: &[Channel]) -> bool
    ensures exact { result ≡ are_plain channels.now }
    ensures each { result ≡ true → All IsPlain channels.now }
{
    channels.iter().all(|channel| is_plain(channel))
}
