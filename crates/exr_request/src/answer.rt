//! Answering a request: the layout of the buffer that is asked for, a deep part's window, or the first reason why they cannot
//! be had.

ghost use Rattle.std.specs.Prelude.{◌≡◌, IsTrue, IfOk, IfErr};
ghost use Rattle.exr_base.specs.Refusal.{Gives};
ghost use Rattle.exr_judge.specs.Picture.{IsPicture};
ghost use Rattle.exr_layout.specs.Validation.{frame_from, IsFrame};
ghost use Rattle.exr_layout.specs.Plan.{part_matched, IsPlanOf};
ghost use Rattle.exr_asked.specs.Demand.{demand_of, IsModest};
ghost use Rattle.exr_request.specs.Request.{is_window_of, window_asked, channels_asked, layout_tested, frame_tested, match_refuses, IsFit, IsGrant, IsRefusal};
ghost use Rattle.exr_request.specs.Answer.{IsNoFit, IsGrantOf, IsRefusalOf};

use crate::arranged::{Arranged, arrange};
use crate::chosen::{chosen, first_mixed};
use crate::fault::RequestFault;
use exr_asked::Asked;
use exr_base::{Box2i, Channel, Refusal};
use exr_header::{FileHead, Header};
use exr_layout::{Layout, Plan, Plane, match_part};
use std::alloc::Global;

/// The most bytes of a buffer (own).
const MOST_BYTES: u64 = 1 << 30;

/// The layout of a buffer, and which channel of the part each of its slices holds.
#[derive(Drop, Debug)]
pub struct Fitted {
    pub layout: Layout,
    pub plan: Plan,
}

/// A request that is granted.
#[derive(Drop, Debug)]
pub enum Granted {
    /// Of a part that is not deep: the buffer.
    Flat(Fitted),
    /// Of a deep part: the window.
    Deep(Box2i),
}

// ---- tests of a part

/// Whether a window has pixels, all of them in the data window of the part.
fn is_window_of(part: &Header, window: Box2i) -> bool
    ensures { result ≡ is_window_of part.now window }
{
    !window.is_empty() && window.is_inside(part.window())
}

// ---- tests of a frame

/// The layout of some planes, of at most 2^30 bytes, or why they are no valid layout.
fn layout_of(planes: Vec<Plane>, window: Box2i, buffer: u64) -> Result<Layout, RequestFault>
    requires { IsFrame (frame_from planes.items window buffer) }
    ensures { result ≡ layout_tested (frame_from planes.items window buffer) }
{
    match Layout::new(planes, window, buffer) {
        Ok(layout) => {
            if buffer > MOST_BYTES {
                return Err(RequestFault::TooLarge);
            }
            Ok(layout)
        }
        Err(fault) => Err(RequestFault::Layout(fault)),
    }
}

/// Matches a layout with a part.
fn planned(alloc: Global, part: &Header, layout: Layout) -> Result<Fitted, Refusal<RequestFault>>
    requires { IsPicture part.now }
    ensures exact { Gives (λ r. r.plan.channels) result (match_refuses (part_matched layout part.now)) }
    ensures layout { IfOk result (λ r. r.layout ≡ layout) }
    ensures plan { IfOk result (λ r. IsPlanOf layout part.now.channels r.plan) }
{
    match match_part(alloc, &layout, part) {
        Ok(plan) => Ok(Fitted { layout, plan }),
        Err(Refusal::Fault(fault)) => Err(Refusal::Fault(RequestFault::Match(fault))),
        Err(Refusal::NoMemory) => Err(Refusal::NoMemory),
    }
}

/// The layout of some planes, matched with a part, or why they do not fit.
fn fit_planes(
    alloc: Global,
    part: &Header,
    window: Box2i,
    arranged: Arranged,
) -> Result<Fitted, Refusal<RequestFault>>
    requires picture { IsPicture part.now }
    requires frame { IsFrame (frame_from arranged.planes.items window arranged.buffer) }
    ensures exact { Gives (λ r. r.plan.channels) result
        (frame_tested part.now (frame_from arranged.planes.items window arranged.buffer)) }
    ensures layout { IfOk result (λ r. r.layout ≡ frame_from arranged.planes.items window arranged.buffer) }
    ensures plan { IfOk result (λ r. IsPlanOf r.layout part.now.channels r.plan) }
{
    match layout_of(arranged.planes, window, arranged.buffer) {
        Ok(layout) => planned(alloc, part, layout),
        Err(stop) => Err(Refusal::Fault(stop)),
    }
}

// ---- answers

/// Answers a request for a window and channels that are known.
fn framed(
    alloc: Global,
    part: &Header,
    asked: &Asked,
    window: Box2i,
    channels: &[Channel],
) -> Result<Fitted, Refusal<RequestFault>>
    requires picture { IsPicture part.now }
    requires modest { IsModest (demand_of asked.now) }
    requires window { window ≡ window_asked (demand_of asked.now) part.now }
    requires channels { channels.now ≡ channels_asked (demand_of asked.now) part.now }
    requires within { IsTrue (is_window_of part.now window) }
    ensures granted { IfOk result (λ r. IsFit (demand_of asked.now) part.now r.layout r.plan) }
    ensures refused { IfErr result (λ refusal. IsNoFit (demand_of asked.now) part.now refusal) }
{
    let arranged = arrange(alloc, asked.layout, window, channels, asked.pad, asked.fill)?;
    fit_planes(alloc, part, window, arranged)
}

/// Answers a request for a part.
fn answered(alloc: Global, part: &Header, asked: &Asked) -> Result<Granted, Refusal<RequestFault>>
    requires picture { IsPicture part.now }
    requires modest { IsModest (demand_of asked.now) }
    ensures granted { IfOk result (IsGrantOf (demand_of asked.now) part.now) }
    ensures refused { IfErr result (λ refusal. IsRefusalOf (demand_of asked.now) part.now refusal) }
{
    let is_deep = part.kind().is_deep();
    if is_deep && asked.arranged {
        return Err(Refusal::Fault(RequestFault::DeepWords));
    }
    let window = asked.window.unwrap_or(part.window());
    if !is_window_of(part, window) {
        return Err(Refusal::Fault(RequestFault::Window));
    }
    let channels = chosen(alloc, part.channels(), &asked.channels)?;
    if let Some(slice) = first_mixed(asked.layout, channels.as_slice()) {
        return Err(Refusal::Fault(RequestFault::Mixed {
            slice: slice as u32,
        }));
    }
    if is_deep {
        return Ok(Granted::Deep(window));
    }
    Ok(Granted::Flat(framed(alloc, part, asked, window, channels.as_slice())?))
}

/// The layout of the buffer that is asked for, matched with the part, or of a deep part the window, or the first reason why
/// they cannot be had (own): the file has no such part (`NoPart`), the part is deep and the buffer was arranged
/// (`DeepWords`), the window is empty or not within the data window (`Window`), channels of different samplings share lines
/// or pixels (`Mixed`), the planes are no valid layout (`Layout`), the buffer would have more than 2^30 bytes (`TooLarge`),
/// or a pixel type is not the part's (`Match`). Of a deep part the last three are not tested; how many samples it has is
/// known when they are read. No buffer is allocated.
pub fn request(
    alloc: Global,
    head: &FileHead,
    asked: &Asked,
) -> Result<Granted, Refusal<RequestFault>>
    requires { IsModest (demand_of asked.now) }
    ensures granted { IfOk result (IsGrant head.now (demand_of asked.now)) }
    ensures refused { IfErr result (λ refusal. IsRefusal head.now (demand_of asked.now) refusal) }
{
    match head.parts().get(asked.part as usize) {
        Some(part) => answered(alloc, part, asked),
        None => Err(Refusal::Fault(RequestFault::NoPart)),
    }
}
