//! The channels that a buffer has slices for: those that are asked for, or all of the part.

ghost use Rattle.std.specs.Prelude.{◌≡◌, ◌≤◌, List, length, map, position, option_map, All, IfOk, IfSome};
ghost use Rattle.exr_base.specs.Shape.{IsSampled};
ghost use Rattle.exr_request.specs.Chosen.{channel_wanted, channels_chosen, first_of};
ghost use Rattle.exr_request.specs.Request.{is_mixed, first_mixed};

use exr_asked::{Arrangement, Wanted};
use exr_base::{Channel, Kind, NoMemory, copy_channels, find_channel};
use std::alloc::Global;

/// A channel that is asked for: the part's channel of its name, or else one of halves, with the pixel type that was given.
fn channel_wanted(channels: &[Channel], wanted: &Wanted) -> Result<Channel, NoMemory>
    ensures { IfOk result (λ channel. channel ≡ channel_wanted channels.now wanted.now) }
{
    let name = wanted.name.clone()?;
    match find_channel(channels, &wanted.name) {
        None => Ok(Channel {
            name,
            kind: wanted.kind.unwrap_or(Kind::Half),
            linear: 0,
            xs: 1,
            ys: 1,
        }),
        Some(place) => {
            let channel = &channels[place];
            Ok(Channel {
                name,
                kind: wanted.kind.unwrap_or(channel.kind),
                linear: channel.linear,
                xs: channel.xs,
                ys: channel.ys,
            })
        }
    }
}

fn all_wanted(
    alloc: Global,
    channels: &[Channel],
    wanted: &[Wanted],
) -> Result<Vec<Channel>, NoMemory>
    ensures { IfOk result (λ chosen. chosen.items ≡ map (channel_wanted channels.now) wanted.now) }
{
    let mut chosen = Vec::new(alloc);
    for one in wanted {
        chosen.push(channel_wanted(channels, one)?)?;
    }
    Ok(chosen)
}

/// The channels of a part that are asked for, or all of them.
pub(crate) fn chosen(
    alloc: Global,
    channels: &[Channel],
    wanted: &Option<Vec<Wanted>>,
) -> Result<Vec<Channel>, NoMemory>
    ensures { IfOk result (λ chosen. chosen.items
        ≡ channels_chosen channels.now (option_map (λ wanted. wanted.items) wanted.now)) }
{
    match wanted {
        None => copy_channels(alloc, channels),
        Some(wanted) => all_wanted(alloc, channels, wanted.as_slice()),
    }
}

fn is_mixed(layout: Arrangement, first: &Channel, channel: &Channel) -> bool
    ensures { result ≡ is_mixed layout first.now channel.now }
{
    match layout {
        Arrangement::Planar => false,
        Arrangement::Lines => channel.ys != first.ys,
        Arrangement::Pixels => channel.xs != first.xs || channel.ys != first.ys,
    }
}

/// The first channel whose samplings differ from the first one's, where they share lines or pixels.
pub(crate) fn first_mixed(layout: Arrangement, channels: &[Channel]) -> Option<usize>
    ensures { result ≡ first_mixed layout channels.now }
{
    let first = channels.first()?;
    channels
        .iter()
        .position(|channel| is_mixed(layout, first, channel))
}

/// The samplings of the first channel, in x and in y; 1 and 1 where there is none.
pub(crate) fn first_samplings(channels: &[Channel]) -> (u32, u32)
    requires { All IsSampled channels.now }
    ensures columns { result.0 ≡ (first_of channels.now).xs }
    ensures rows { result.1 ≡ (first_of channels.now).ys }
    ensures sampled { (1 ≤ result.0) × (1 ≤ result.1) }
{
    match channels.first() {
        None => (1, 1),
        Some(first) => (first.xs, first.ys),
    }
}
