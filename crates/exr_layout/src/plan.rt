//! A layout matched with the channels of a part: which channel each slice holds.

ghost use Rattle.std.specs.Prelude.{◌≡◌, ◌≤◌, ◌<◌, ℕ, length, position, slice_index_or, Some, None, IfOk, IfSome, IsTrue, ◌↔◌};
ghost use Rattle.exr_base.specs.Refusal.{Gives};
ghost use Rattle.exr_judge.specs.Picture.{IsPicture};
ghost use Rattle.exr_layout.specs.Inverse.{AreInverse};
ghost use Rattle.exr_layout.specs.Place.{placements_of};
ghost use Rattle.exr_base.specs.Channel.{channel_at, is_named};
ghost use Rattle.exr_base.specs.Boxes.{is_side_inside, is_inside, IsInside};
ghost use Rattle.exr_layout.specs.Plan.{same_kind, same_samplings, against, slice_matched, slices_matched, part_matched, IsFull, IsPlanOf};

use crate::fault::MatchFault;
use crate::layout::Layout;
use crate::placement::{Placement, placements_of};
use exr_base::{Channel, Kind, NoMemory, Refusal, find_channel};
use exr_judge::Header;
use std::alloc::Global;
use std::marker::Model;

/// Which channel of a part each slice of a layout holds, if any.
#[derive(Drop, Debug)]
pub struct Plan {
    /// The placement of each slice.
    placements: Vec<Placement>,
    /// For each slice the index of its channel.
    channels: Vec<Option<u32>>,
    /// For each channel of the part the number of its slice.
    slices: Vec<Option<u32>>,
}

impl Model for Plan {
    ghost use Rattle.exr_layout.specs.Plan.{Matching, matching_from};

    ghost Value = { Matching };

    ghost view = { λ p. matching_from p.placements.items p.channels.items p.slices.items };
}

impl Plan {
    ghost use Rattle.std.specs.Prelude.{◌≡◌, ◌<◌, length, slice_index_or, None, IsTrue, ◌↔◌};
    ghost use Rattle.exr_layout.specs.Place.{placement_at};
    ghost use Rattle.exr_layout.specs.Plan.{IsFull};

    /// Number of slices of the layout.
    pub fn slice_count(&self) -> usize
        ensures { result ≡ length self.now.channels }
    {
        self.channels.len()
    }

    /// The placement of slice `slice`.
    pub fn placement(&self, slice: usize) -> &Placement
        requires { slice < length self.now.placements }
        ensures { result.now ≡ placement_at self.now.placements slice }
    {
        &self.placements[slice]
    }

    /// The index of a slice's channel among the part's channels; `None` if the part has no channel of its name.
    pub fn channel(&self, slice: usize) -> Option<u32>
        requires { slice < length self.now.channels }
        ensures { result ≡ slice_index_or self.now.channels slice None }
    {
        self.channels[slice]
    }

    /// The number of the slice that holds channel `channel` of the part; `None` if no slice has its name.
    pub fn slice(&self, channel: usize) -> Option<u32>
        requires { channel < length self.now.slices }
        ensures { result ≡ slice_index_or self.now.slices channel None }
    {
        self.slices[channel]
    }

    /// Each channel of the part has a slice.
    pub fn is_full(&self) -> bool
        ensures { IsTrue result ↔ IsFull self.now }
    {
        self.slices.iter().all(|slice| slice.is_some())
    }
}

fn same_kind(a: Kind, b: Kind) -> bool
    ensures { result ≡ same_kind a b }
{
    a == b
}

fn same_samplings(placement: &Placement, channel: &Channel) -> bool
    ensures { result ≡ same_samplings placement.now channel.now }
{
    channel.xs == placement.sampling && channel.ys == placement.row_sampling
}

/// A slice against the channel of its name.
fn against(
    number: u32,
    placement: &Placement,
    channel: &Channel,
    place: u32,
) -> Result<Option<u32>, MatchFault>
    ensures { result ≡ against number placement.now channel.now place }
{
    if !same_kind(channel.kind, placement.kind) {
        return Err(MatchFault::KindDiffers { slice: number });
    }
    if !same_samplings(placement, channel) {
        return Err(MatchFault::SamplingDiffers { slice: number });
    }
    Ok(Some(place))
}

/// The index of a slice's channel, if the part has one.
#[tactic(auto, unfolding(crate::specs::Plan::slice_matched))]
fn slice_matched(
    channels: &[Channel],
    number: u32,
    placement: &Placement,
) -> Result<Option<u32>, MatchFault>
    requires { length channels.now ≤ 1024 }
    ensures exact { result ≡ slice_matched channels.now number placement.now }
    ensures within { IfOk result (λ place. IfSome place (λ c. c < length channels.now)) }
{
    match find_channel(channels, &placement.channel) {
        None => Ok(None),
        Some(place) => against(number, placement, &channels[place], place as u32),
    }
}

/// The index of each slice's channel.
fn slices_matched(
    alloc: Global,
    channels: &[Channel],
    placements: &[Placement],
) -> Result<Vec<Option<u32>>, Refusal<MatchFault>>
    requires few { length placements.now ≤ 1024 }
    requires channels { length channels.now ≤ 1024 }
    ensures { Gives (λ places. places.items) result (slices_matched channels.now 0 placements.now) }
{
    let mut places = Vec::with_capacity(alloc, placements.len())?;
    let mut number = 0;
    for placement in placements {
        match slice_matched(channels, number, placement) {
            Ok(place) => places.push(place)?,
            Err(fault) => return Err(Refusal::Fault(fault)),
        }
        number += 1;
    }
    Ok(places)
}

/// For each of the `count` channels of a part the number of its slice.
fn by_channel(
    alloc: Global,
    channels: &[Option<u32>],
    count: usize,
) -> Result<Vec<Option<u32>>, NoMemory>
    requires few { length channels.now ≤ 1024 }
    requires within { (s c : ℕ) → slice_index_or channels.now s None ≡ Some c → c < count }
    requires once { (s t c : ℕ) → slice_index_or channels.now s None ≡ Some c
        → slice_index_or channels.now t None ≡ Some c → s ≡ t }
    ensures { IfOk result (λ slices. AreInverse channels.now count slices.items (length channels.now)) }
{
    let mut slices = vec![in alloc; None; count]?;
    for number in 0..channels.len() {
        if let Some(place) = channels[number] {
            slices[place as usize] = Some(number as u32);
        }
    }
    Ok(slices)
}

/// Matches the slices of a layout with the channels of a part by name; the first difference is the fault (own). The
/// layout's window lies in the data window of a part that it matches.
#[tactic(auto, unfolding(crate::specs::Plan::part_matched))]
pub fn match_part(
    alloc: Global,
    layout: &Layout,
    header: &Header,
) -> Result<Plan, Refusal<MatchFault>>
    requires { IsPicture header.now }
    ensures exact { Gives (λ plan. plan.channels) result (part_matched layout.now header.now) }
    ensures plan { IfOk result (IsPlanOf layout.now header.now.channels) }
    ensures inside { IfOk result (λ _. IsInside header.now.window layout.now.window) }
{
    if !layout.window().is_inside(header.window()) {
        return Err(Refusal::Fault(MatchFault::WindowOutside));
    }
    let placements = placements_of(alloc, layout.planes())?;
    let channels = slices_matched(alloc, header.channels(), placements.as_slice())?;
    let slices = by_channel(alloc, channels.as_slice(), header.channels().len())?;
    Ok(Plan {
        placements,
        channels,
        slices,
    })
}
