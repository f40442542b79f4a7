//! Validation of planes: the tests of a layout in their order. Each test of a run or a plane answers the offset at which
//! it ends, or its first fault.

ghost use Rattle.std.specs.Prelude.{◌≡◌, ◌≤◌, ◌<◌, ◌+◌, ◌^◌, ℕ, All, false, length, take, position, slice_get, IfOk, OnOk};
ghost use Rattle.std.specs.List.{list_any};
ghost use Rattle.std.specs.Option.{option_copied};
ghost use Rattle.exr_base.specs.Shape.{IsRegion};
ghost use Rattle.exr_base.specs.Sampling.{sample_count_of};
ghost use Rattle.exr_layout.specs.Validation.{is_empty_run, is_empty_plane, is_huge, is_huge_slice, is_huge_run, is_huge_plane, has_name, refused_at, slices_of, slices_of_runs, slices_of_plane, names_validated, slices_validated, run_validated, runs_validated, samplings_validated, plane_validated, planes_validated, frame_validated, frame_from, IsFrame, end_of};
ghost use Rattle.exr_layout.specs.Near.{IsNearSlice, IsNearRun, IsNearPlane, IsSampledRun};

use crate::fault::LayoutFault;
use crate::names::{names_once, slice_count};
use crate::planes::{Plane, Run, Slice};
use exr_base::{Box2i, sample_count};

// ---- over all planes

fn is_empty_run(run: &Run) -> bool
    ensures { result ≡ is_empty_run run.now }
{
    run.slices.is_empty()
}

fn has_empty_run(runs: &[Run]) -> bool
    ensures { result ≡ list_any is_empty_run runs.now }
{
    runs.iter().any(|run| is_empty_run(run))
}

fn is_empty_plane(plane: &Plane) -> bool
    ensures { result ≡ is_empty_plane plane.now }
{
    plane.runs.is_empty() || has_empty_run(plane.runs.as_slice())
}

fn first_empty(planes: &[Plane]) -> Option<usize>
    ensures { result ≡ position is_empty_plane planes.now }
{
    planes.iter().position(|plane| is_empty_plane(plane))
}

/// Each plane has runs, and each run has slices.
fn all_filled(planes: &[Plane]) -> Result<(), LayoutFault>
    requires { length (slices_of planes.now) ≤ 1024 }
    ensures exact { result ≡ refused_at (λ p. LayoutFault.Empty p) (position is_empty_plane planes.now) }
    ensures filled { OnOk result (All (λ p. is_empty_plane p ≡ false) planes.now) }
    ensures few { OnOk result (length planes.now ≤ 1024) }
{
    match first_empty(planes) {
        None => Ok(()),
        Some(plane) => Err(LayoutFault::Empty {
            plane: plane as u32,
        }),
    }
}

fn is_huge(number: u64) -> bool
    ensures { result ≡ is_huge number }
{
    number > 1 << 40
}

fn has_huge_slice(slices: &[Slice]) -> bool
    ensures { result ≡ list_any is_huge_slice slices.now }
{
    slices.iter().any(|slice| is_huge(slice.at))
}

fn is_huge_run(run: &Run) -> bool
    ensures { result ≡ is_huge_run run.now }
{
    is_huge(run.at) || is_huge(run.stride) || has_huge_slice(run.slices.as_slice())
}

fn has_huge_run(runs: &[Run]) -> bool
    ensures { result ≡ list_any is_huge_run runs.now }
{
    runs.iter().any(|run| is_huge_run(run))
}

fn is_huge_plane(plane: &Plane) -> bool
    ensures { result ≡ is_huge_plane plane.now }
{
    is_huge(plane.base) || is_huge(plane.stride) || has_huge_run(plane.runs.as_slice())
}

fn first_huge(planes: &[Plane]) -> Option<usize>
    ensures { result ≡ position is_huge_plane planes.now }
{
    planes.iter().position(|plane| is_huge_plane(plane))
}

/// No base, offset or stride is above 2^40.
fn all_near(planes: &[Plane]) -> Result<(), LayoutFault>
    requires { length planes.now ≤ 1024 }
    ensures exact { result ≡ refused_at (λ p. LayoutFault.Huge p) (position is_huge_plane planes.now) }
    ensures near { OnOk result (All IsNearPlane planes.now) }
{
    match first_huge(planes) {
        None => Ok(()),
        Some(plane) => Err(LayoutFault::Huge {
            plane: plane as u32,
        }),
    }
}

// ---- slice by slice, run by run, plane by plane

/// End offset of `pieces` items of `each` bytes that start at `at`, one `stride` apart; `at` if there are none.
fn end_of(at: u64, stride: u64, pieces: u32, each: u64) -> u64
    requires at { at ≤ 2 ^ 40 }
    requires stride { stride ≤ 2 ^ 40 }
    requires pieces { pieces ≤ 2 ^ 20 }
    requires each { each ≤ 2 ^ 62 }
    ensures exact { result ≡ end_of at stride pieces each }
    ensures small { result ≤ each + 2 ^ 61 }
{
    if pieces == 0 {
        at
    } else {
        at + u64::from(pieces - 1) * stride + each
    }
}

/// Each slice of a run starts at the end of the one before, or after it.
fn slices_end(slices: &[Slice], first: u32) -> Result<u64, LayoutFault>
    requires near { All IsNearSlice slices.now }
    requires few { first + length slices.now ≤ 1024 }
    ensures exact { result ≡ slices_validated first 0 slices.now }
    ensures small { IfOk result (λ end. end ≤ 2 ^ 41) }
{
    let mut number = first;
    let mut ended = 0;
    for slice in slices {
        if slice.at < ended {
            return Err(LayoutFault::Overlap {
                first: number - 1,
                second: number,
            });
        }
        ended = slice.at + slice.kind.bytes() as u64;
        number += 1;
    }
    Ok(ended)
}

/// A run starts at or after `ended`, and its slices end within its stride.
#[tactic(auto, unfolding(crate::specs::Validation::run_validated))]
fn run_end(run: &Run, window: Box2i, first: u32, ended: u64) -> Result<u64, LayoutFault>
    requires near { IsNearRun run.now }
    requires sampled { IsSampledRun run.now }
    requires region { IsRegion window }
    requires few { first + length run.now.slices.items ≤ 1024 }
    requires some { 0 < length run.now.slices.items }
    requires begun { first ≡ 0 → ended ≡ 0 }
    ensures exact { result ≡ run_validated window first ended run.now }
    ensures small { IfOk result (λ end. end ≤ 2 ^ 62) }
{
    let each = slices_end(run.slices.as_slice(), first)?;
    if run.stride < each {
        return Err(LayoutFault::ShortStride {
            slice: first + run.slices.len() as u32 - 1,
        });
    }
    if run.at < ended {
        return Err(LayoutFault::Overlap {
            first: first - 1,
            second: first,
        });
    }
    let columns = columns_of(window, run.sampling);
    Ok(end_of(run.at, run.stride, columns, each))
}

fn columns_of(window: Box2i, sampling: u32) -> u32
    requires region { IsRegion window }
    requires sampled { 1 ≤ sampling }
    ensures exact { result ≡ sample_count_of sampling window.x0 window.x1 }
    ensures small { result ≤ 2 ^ 20 }
{
    sample_count(sampling, window.x0, window.x1)
}

fn rows_of(window: Box2i, sampling: u32) -> u32
    requires region { IsRegion window }
    requires sampled { 1 ≤ sampling }
    ensures exact { result ≡ sample_count_of sampling window.y0 window.y1 }
    ensures small { result ≤ 2 ^ 20 }
{
    sample_count(sampling, window.y0, window.y1)
}

/// Each run has a sampling.
fn all_sampled(runs: &[Run], first: u32) -> Result<(), LayoutFault>
    requires { first + length (slices_of_runs runs.now) ≤ 1024 }
    ensures exact { result ≡ samplings_validated first runs.now }
    ensures sampled { OnOk result (All IsSampledRun runs.now) }
{
    let mut number = first;
    for run in runs {
        if run.sampling == 0 {
            return Err(LayoutFault::ZeroSampling { slice: number });
        }
        number += run.slices.len() as u32;
    }
    Ok(())
}

/// Each run of a plane starts at the end of the one before, or after it.
fn runs_end(runs: &[Run], window: Box2i, first: u32) -> Result<u64, LayoutFault>
    requires near { All IsNearRun runs.now }
    requires filled { list_any is_empty_run runs.now ≡ false }
    requires sampled { All IsSampledRun runs.now }
    requires region { IsRegion window }
    requires few { first + length (slices_of_runs runs.now) ≤ 1024 }
    ensures exact { result ≡ runs_validated window first 0 runs.now }
    ensures small { IfOk result (λ end. end ≤ 2 ^ 62) }
{
    let mut number = first;
    let mut ended = 0;
    for run in runs {
        ended = run_end(run, window, number, ended)?;
        number += run.slices.len() as u32;
    }
    Ok(ended)
}

/// A plane starts at or after `ended`, its rows end within its stride, and it ends within the buffer.
#[tactic(auto, unfolding(crate::specs::Validation::plane_validated))]
fn plane_end(
    plane: &Plane,
    window: Box2i,
    buffer: u64,
    first: u32,
    ended: u64,
) -> Result<u64, LayoutFault>
    requires near { IsNearPlane plane.now }
    requires filled { is_empty_plane plane.now ≡ false }
    requires region { IsRegion window }
    requires few { first + length (slices_of_plane plane.now) ≤ 1024 }
    requires begun { first ≡ 0 → ended ≡ 0 }
    ensures { result ≡ plane_validated window buffer first ended plane.now }
{
    if plane.sampling == 0 {
        return Err(LayoutFault::ZeroSampling { slice: first });
    }
    let runs = plane.runs.as_slice();
    all_sampled(runs, first)?;
    let each = runs_end(runs, window, first)?;
    let last = first + slice_count(runs) as u32 - 1;
    if plane.stride < each {
        return Err(LayoutFault::ShortStride { slice: last });
    }
    if plane.base < ended {
        return Err(LayoutFault::Overlap {
            first: first - 1,
            second: first,
        });
    }
    let end = end_of(
        plane.base,
        plane.stride,
        rows_of(window, plane.sampling),
        each,
    );
    if buffer < end {
        return Err(LayoutFault::OutOfBuffer { slice: last });
    }
    Ok(end)
}

/// Each plane starts at the end of the one before, or after it, and ends within the buffer.
fn planes_end(planes: &[Plane], window: Box2i, buffer: u64) -> Result<u64, LayoutFault>
    requires near { All IsNearPlane planes.now }
    requires filled { All (λ p. is_empty_plane p ≡ false) planes.now }
    requires region { IsRegion window }
    requires few { length (slices_of planes.now) ≤ 1024 }
    ensures { result ≡ planes_validated window buffer 0 0 planes.now }
{
    let mut number = 0;
    let mut ended = 0;
    for plane in planes {
        ended = plane_end(plane, window, buffer, number, ended)?;
        number += slice_count(plane.runs.as_slice()) as u32;
    }
    Ok(ended)
}

/// The tests, in their order.
#[tactic(auto, unfolding(crate::specs::Validation::frame_validated))]
pub(crate) fn planes_fit(planes: &[Plane], window: Box2i, buffer: u64) -> Result<u64, LayoutFault>
    requires { IsFrame (frame_from planes.now window buffer) }
    ensures { result ≡ frame_validated (frame_from planes.now window buffer) }
{
    all_filled(planes)?;
    all_near(planes)?;
    names_once(planes)?;
    planes_end(planes, window, buffer)
}
