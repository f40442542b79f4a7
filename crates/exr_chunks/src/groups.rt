//! The channels of a part in lines, those of one y sampling taken together.

ghost use Rattle.std.specs.Prelude.{◌≡◌, ◌≤◌, ◌<◌, ◌+◌, ◌*◌, ◌^◌, ℕ, All, IfOk, IfSome, OnOk, length, slice_index_or};
ghost use Rattle.exr_base.specs.Shape.{IsRegion, IsShape};
ghost use Rattle.exr_chunks.specs.RawBytes.{row_bytes, weighed, weighed_channels, IsGrouped};

use exr_base::{Box2i, Channel, NoMemory, sample_count};
use std::alloc::Global;

/// The channels of one y sampling: their bytes together on each line whose number is a multiple of it.
#[derive(Clone, Copy, Debug)]
pub(crate) struct Group {
    pub ys: u32,
    pub bytes: u32,
}

/// The index of the group of a sampling.
fn place_of(groups: &[Group], ys: u32) -> Option<usize>
    ensures { IfSome result (λ place. (place < length groups.now) × ((d : Group) → (slice_index_or groups.now place d).ys ≡ ys)) }
{
    for i in 0..groups.len() {
        if groups[i].ys == ys {
            return Some(i);
        }
    }
    None
}

/// Adds the bytes of a channel to those of its sampling.
fn add(groups: &mut Vec<Group>, ys: u32, bytes: u32) -> Result<(), NoMemory>
    requires sampled { 1 ≤ ys }
    requires groups { All (λ g. 1 ≤ g.ys) groups.old.items }
    requires small { weighed (λ _. 1) groups.old.items + bytes < 2 ^ 32 }
    ensures sampled { OnOk result (All (λ g. 1 ≤ g.ys) groups.new.items) }
    ensures more { OnOk result ((weight : ℕ → ℕ) → weighed weight groups.new.items ≡ weighed weight groups.old.items + weight ys * bytes) }
{
    match place_of(groups.as_slice(), ys) {
        Some(place) => {
            groups[place].bytes += bytes;
            Ok(())
        }
        None => {
            groups.push(Group { ys, bytes })?;
            Ok(())
        }
    }
}

/// Bytes of a channel on each line with samples of it.
fn row_bytes(channel: &Channel, window: Box2i) -> u32
    requires region { IsRegion window }
    requires sampled { 1 ≤ channel.now.xs }
    requires small { row_bytes window channel.now ≤ 2 ^ 26 }
    ensures { result ≡ row_bytes window channel.now }
{
    let samples = sample_count(channel.xs, window.x0, window.x1);
    samples * channel.kind.bytes() as u32
}

/// The groups of channels that together have at most 2^26 bytes on a line with samples of each.
pub(crate) fn groups_of(
    alloc: Global,
    channels: &[Channel],
    window: Box2i,
) -> Result<Vec<Group>, NoMemory>
    requires shape { IsShape channels.now window }
    requires small { weighed_channels (λ _. 1) window channels.now ≤ 2 ^ 26 }
    ensures { IfOk result (λ groups. IsGrouped window channels.now groups.items) }
{
    let mut groups = Vec::new(alloc);
    for channel in channels {
        add(&mut groups, channel.ys, row_bytes(channel, window))?;
    }
    Ok(groups)
}
