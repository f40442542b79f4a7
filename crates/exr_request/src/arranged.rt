//! Planes for the samples of channels, in each order of samples, and the size of their buffer.

ghost use Rattle.std.specs.Prelude.{◌≡◌, ◌≤◌, ◌^◌, [], ◌∷◌, length, map, All, sum_by, IfOk};
ghost use Rattle.exr_base.specs.Shape.{IsRegion, IsSampled};
ghost use Rattle.exr_asked.specs.declared.choices.Arrangement.TheVariants as arrangement;
ghost use Rattle.exr_request.specs.Arranged.{kind_bytes, row_bytes, plain_run, plain_plane, behind, slice_for, run_for, plane_for, line_plane, pixel_run, pixel_plane, planes_for, end_behind};

use crate::chosen::first_samplings;
use crate::sizes::{columns_of, kind_bytes, row_bytes, rows_of};
use exr_asked::Arrangement;
use exr_base::{Box2i, Channel, NoMemory};
use exr_layout::{Plane, Run, Slice};
use std::alloc::Global;

/// Planes over a window, and the size of their buffer in bytes.
#[derive(Drop, Debug)]
pub(crate) struct Arranged {
    pub(crate) planes: Vec<Plane>,
    pub(crate) buffer: u64,
}

fn slice_for(channel: &Channel, at: u64, fill: u32) -> Result<Slice, NoMemory>
    ensures { IfOk result (λ slice. slice ≡ slice_for fill at channel.now) }
{
    Ok(Slice {
        channel: channel.name.clone()?,
        kind: channel.kind,
        at,
        fill,
    })
}

/// A run of the samples of a channel, one after another.
fn run_for(alloc: Global, channel: &Channel, at: u64, fill: u32) -> Result<Run, NoMemory>
    ensures { IfOk result (λ run. plain_run run ≡ run_for fill at channel.now) }
{
    let slice = slice_for(channel, 0, fill)?;
    Ok(Run {
        at,
        stride: kind_bytes(channel),
        sampling: channel.xs,
        slices: vec![in alloc; slice]?,
    })
}

/// A plane of the lines of a channel, `stride` bytes apart.
fn plane_for(
    alloc: Global,
    channel: &Channel,
    base: u64,
    stride: u64,
    fill: u32,
) -> Result<Plane, NoMemory>
    ensures { IfOk result (λ plane. plain_plane plane
        ≡ record { base = base; stride = stride; sampling = channel.now.ys; runs = run_for fill 0 channel.now ∷ [] }) }
{
    let run = run_for(alloc, channel, 0, fill)?;
    Ok(Plane {
        base,
        stride,
        sampling: channel.ys,
        runs: vec![in alloc; run]?,
    })
}

/// A plane for each channel.
fn planar(
    alloc: Global,
    window: Box2i,
    channels: &[Channel],
    pad: u32,
    fill: u32,
) -> Result<Arranged, NoMemory>
    requires region { IsRegion window }
    requires sampled { All IsSampled channels.now }
    requires few { length channels.now ≤ 1024 }
    requires pad { pad ≤ 65535 }
    ensures planes { IfOk result (λ a. map plain_plane a.planes.items
        ≡ planes_for arrangement.Planar window pad fill channels.now) }
    ensures buffer { IfOk result (λ a. a.buffer
        ≡ end_behind window 0 (planes_for arrangement.Planar window pad fill channels.now)) }
    ensures small { IfOk result (λ a. a.buffer ≤ 2 ^ 60) }
{
    let mut planes = Vec::new(alloc);
    let mut base = 0;
    for channel in channels {
        let stride = row_bytes(window, channel) + u64::from(pad);
        planes.push(plane_for(alloc, channel, base, stride, fill)?)?;
        base += rows_of(window, channel.ys) * stride;
    }
    Ok(Arranged {
        planes,
        buffer: base,
    })
}

/// The runs of a line that all channels share, and the bytes of their samples.
fn line_runs(
    alloc: Global,
    window: Box2i,
    channels: &[Channel],
    fill: u32,
) -> Result<(Vec<Run>, u64), NoMemory>
    requires region { IsRegion window }
    requires sampled { All IsSampled channels.now }
    requires few { length channels.now ≤ 1024 }
    ensures runs { IfOk result (λ r. map plain_run r.0.items ≡ behind (row_bytes window) (run_for fill) 0 channels.now) }
    ensures bytes { IfOk result (λ r. r.1 ≡ sum_by (row_bytes window) channels.now) }
    ensures small { IfOk result (λ r. r.1 ≤ 2 ^ 32) }
{
    let mut runs = Vec::new(alloc);
    let mut at = 0;
    for channel in channels {
        runs.push(run_for(alloc, channel, at, fill)?)?;
        at += row_bytes(window, channel);
    }
    Ok((runs, at))
}

/// A plane whose lines hold those of all channels.
fn lines(
    alloc: Global,
    window: Box2i,
    channels: &[Channel],
    pad: u32,
    fill: u32,
) -> Result<Arranged, NoMemory>
    requires region { IsRegion window }
    requires sampled { All IsSampled channels.now }
    requires few { length channels.now ≤ 1024 }
    requires pad { pad ≤ 65535 }
    ensures planes { IfOk result (λ a. map plain_plane a.planes.items
        ≡ planes_for arrangement.Lines window pad fill channels.now) }
    ensures buffer { IfOk result (λ a. a.buffer
        ≡ end_behind window 0 (planes_for arrangement.Lines window pad fill channels.now)) }
    ensures small { IfOk result (λ a. a.buffer ≤ 2 ^ 60) }
{
    let (runs, bytes) = line_runs(alloc, window, channels, fill)?;
    let (_, sampling) = first_samplings(channels);
    let stride = bytes + u64::from(pad);
    let plane = Plane {
        base: 0,
        stride,
        sampling,
        runs,
    };
    Ok(Arranged {
        planes: vec![in alloc; plane]?,
        buffer: rows_of(window, sampling) * stride,
    })
}

/// The slices of a pixel that all channels share, and the bytes of their samples.
fn pixel_slices(
    alloc: Global,
    channels: &[Channel],
    fill: u32,
) -> Result<(Vec<Slice>, u64), NoMemory>
    requires { length channels.now ≤ 1024 }
    ensures slices { IfOk result (λ r. r.0.items ≡ behind kind_bytes (slice_for fill) 0 channels.now) }
    ensures bytes { IfOk result (λ r. r.1 ≡ sum_by kind_bytes channels.now) }
    ensures small { IfOk result (λ r. r.1 ≤ 4096) }
{
    let mut slices = Vec::new(alloc);
    let mut at = 0;
    for channel in channels {
        slices.push(slice_for(channel, at, fill)?)?;
        at += kind_bytes(channel);
    }
    Ok((slices, at))
}

/// A plane whose pixels hold those of all channels.
fn pixels(
    alloc: Global,
    window: Box2i,
    channels: &[Channel],
    pad: u32,
    fill: u32,
) -> Result<Arranged, NoMemory>
    requires region { IsRegion window }
    requires sampled { All IsSampled channels.now }
    requires few { length channels.now ≤ 1024 }
    requires pad { pad ≤ 65535 }
    ensures planes { IfOk result (λ a. map plain_plane a.planes.items
        ≡ planes_for arrangement.Pixels window pad fill channels.now) }
    ensures buffer { IfOk result (λ a. a.buffer
        ≡ end_behind window 0 (planes_for arrangement.Pixels window pad fill channels.now)) }
    ensures small { IfOk result (λ a. a.buffer ≤ 2 ^ 60) }
{
    let (slices, bytes) = pixel_slices(alloc, channels, fill)?;
    let (columns, rows) = first_samplings(channels);
    let pixel = bytes + u64::from(pad);
    let run = Run {
        at: 0,
        stride: pixel,
        sampling: columns,
        slices,
    };
    let row = columns_of(window, columns) * pixel;
    let plane = Plane {
        base: 0,
        stride: row,
        sampling: rows,
        runs: vec![in alloc; run]?,
    };
    Ok(Arranged {
        planes: vec![in alloc; plane]?,
        buffer: rows_of(window, rows) * row,
    })
}

/// Planes for the samples of channels in a window.
pub(crate) fn arrange(
    alloc: Global,
    layout: Arrangement,
    window: Box2i,
    channels: &[Channel],
    pad: u32,
    fill: u32,
) -> Result<Arranged, NoMemory>
    requires region { IsRegion window }
    requires sampled { All IsSampled channels.now }
    requires few { length channels.now ≤ 1024 }
    requires pad { pad ≤ 65535 }
    ensures planes { IfOk result (λ a. map plain_plane a.planes.items ≡ planes_for layout window pad fill channels.now) }
    ensures buffer { IfOk result (λ a. a.buffer ≡ end_behind window 0 (planes_for layout window pad fill channels.now)) }
    ensures small { IfOk result (λ a. a.buffer ≤ 2 ^ 60) }
{
    match layout {
        Arrangement::Planar => planar(alloc, window, channels, pad, fill),
        Arrangement::Lines => lines(alloc, window, channels, pad, fill),
        Arrangement::Pixels => pixels(alloc, window, channels, pad, fill),
    }
}
