//! What the values of the required attributes mean.

ghost use Rattle.std.specs.Prelude.{◌≡◌, ◌&&◌, ◌≤◌, ◌≤ℤ◌, All, length, IfOk};
ghost use Rattle.std.specs.Bool.{OnTrue};
ghost use Rattle.exr_base.specs.Refusal.{Gives};
ghost use Rattle.exr_base.specs.Shape.{IsRegion, IsSampled};
ghost use Rattle.exr_judge.specs.Picture.{box_of, is_coordinate, AreCoordinates, tiles_of, is_tile_side, is_tiles, AreTiles, IsPicture};
ghost use Rattle.exr_judge.specs.Judging.{typed_kind, channels_judged, method_judged, order_judged, window_judged, tiles_judged, picture_of};

use crate::channels::{Channels, channels_of};
use crate::fields::{needed, value};
use crate::header::Header;
use crate::kind::{LineOrder, PartKind, Tiles};
use crate::words::{byte, int, word};
use exr_attributes::{AttributeMap, Bound, Field, HeaderFault};
use exr_base::{Box2i, Method, Refusal, span};
use std::alloc::Global;

/// The kind that the attribute `type` names.
#[tactic(auto, unfolding(crate::specs::Judging::typed_kind))]
pub fn typed_kind(part: u32, map: &AttributeMap) -> Result<PartKind, Refusal<HeaderFault>>
    ensures { Gives (λ kind. kind) result (typed_kind part map.now) }
{
    let text = needed(part, Field::PartType, map)?;
    match PartKind::named(text) {
        Some(kind) => Ok(kind),
        None => Err(Refusal::Fault(HeaderFault::BadPartType { part })),
    }
}

/// Validates a channel list.
#[tactic(auto, unfolding(crate::specs::Judging::channels_judged))]
fn channels_judged(alloc: Global, part: u32, list: &[u8]) -> Result<Channels, Refusal<HeaderFault>>
    ensures exact { Gives (λ channels. channels) result (channels_judged part list.now) }
    ensures few { IfOk result (λ channels. length channels ≤ 1024) }
    ensures sampled { IfOk result (λ channels. All IsSampled channels) }
{
    let Some(channels) = channels_of(alloc, list)? else {
        return Err(Refusal::Fault(HeaderFault::BadChannels { part }));
    };
    if channels.as_slice().len() > 1024 {
        return Err(Refusal::Fault(HeaderFault::Limit(Bound::Channels)));
    }
    Ok(channels)
}

/// The compression method with a number.
#[tactic(auto, unfolding(crate::specs::Judging::method_judged))]
fn method_judged(part: u32, kind: PartKind, number: u8) -> Result<Method, Refusal<HeaderFault>>
    ensures { Gives (λ method. method) result (method_judged part kind number) }
{
    let fault = HeaderFault::UnknownCompression { part, number };
    if kind.is_deep() && number > 3 {
        return Err(Refusal::Fault(fault));
    }
    match Method::of(number) {
        Some(method) => Ok(method),
        None => Err(Refusal::Fault(fault)),
    }
}

/// The line order with a number.
#[tactic(auto, unfolding(crate::specs::Judging::order_judged))]
fn order_judged(part: u32, kind: PartKind, number: u8) -> Result<LineOrder, Refusal<HeaderFault>>
    ensures { Gives (λ order. order) result (order_judged part kind number) }
{
    if number == 0 {
        return Ok(LineOrder::Increasing);
    }
    if number == 1 {
        return Ok(LineOrder::Decreasing);
    }
    if number == 2 && kind.is_tiled() {
        return Ok(LineOrder::Random);
    }
    Err(Refusal::Fault(HeaderFault::BadLineOrder { part, number }))
}

/// The box that a value spells.
fn box_of(value: &[u8]) -> Box2i
    ensures { result ≡ box_of value.now }
{
    Box2i {
        x0: int(value, 0),
        y0: int(value, 4),
        x1: int(value, 8),
        y1: int(value, 12),
    }
}

/// Whether two coordinates are within 2^30 of 0.
fn are_coordinates(x: i32, y: i32) -> bool
    ensures exact { result ≡ (is_coordinate x && is_coordinate y) }
    ensures within { OnTrue result (AreCoordinates x y) }
{
    x >= -(1 << 30) && x <= 1 << 30 && y >= -(1 << 30) && y <= 1 << 30
}

/// Validates a data window.
#[tactic(auto, unfolding(crate::specs::Judging::window_judged))]
fn window_judged(part: u32, window: Box2i) -> Result<Box2i, Refusal<HeaderFault>>
    ensures exact { Gives (λ window. window) result (window_judged part window) }
    ensures region { IfOk result IsRegion }
    ensures columns { IfOk result (λ window. window.x0 ≤ℤ window.x1) }
    ensures rows { IfOk result (λ window. window.y0 ≤ℤ window.y1) }
{
    if window.x1 < window.x0 || window.y1 < window.y0 {
        return Err(Refusal::Fault(HeaderFault::BadWindow { part }));
    }
    if !are_coordinates(window.x0, window.y0) || !are_coordinates(window.x1, window.y1) {
        return Err(Refusal::Fault(HeaderFault::Limit(Bound::Coordinates)));
    }
    if span(window.x0, window.x1) > 1 << 20 || span(window.y0, window.y1) > 1 << 20 {
        return Err(Refusal::Fault(HeaderFault::Limit(Bound::Side)));
    }
    Ok(window)
}

/// The tile description that a value spells.
fn tiles_of(value: &[u8]) -> Tiles
    ensures { result ≡ tiles_of value.now }
{
    let modes = byte(value, 8);
    Tiles {
        xsize: word(value, 0),
        ysize: word(value, 4),
        mode: modes % 16,
        rounding: modes / 16,
    }
}

/// Whether a tile's side is 1 to 2^30.
fn is_tile_side(side: u32) -> bool
    ensures { result ≡ is_tile_side side }
{
    side >= 1 && side <= 1 << 30
}

/// Whether the fields of a tile description are in range.
fn is_tiles(tiles: Tiles) -> bool
    ensures { result ≡ is_tiles tiles }
{
    is_tile_side(tiles.xsize) && is_tile_side(tiles.ysize) && tiles.mode <= 2 && tiles.rounding <= 1
}

/// Validates the tile description of a tiled part.
#[tactic(auto, unfolding(crate::specs::Judging::tiles_judged))]
fn tiles_judged(
    part: u32,
    kind: PartKind,
    tiles: Tiles,
) -> Result<Option<Tiles>, Refusal<HeaderFault>>
    ensures exact { Gives (λ tiles. tiles) result (tiles_judged part kind tiles) }
    ensures sides { IfOk result AreTiles }
{
    if !kind.is_tiled() {
        return Ok(None);
    }
    if !is_tiles(tiles) {
        return Err(Refusal::Fault(HeaderFault::BadTiles { part }));
    }
    if tiles.mode != 0 {
        return Err(Refusal::Fault(HeaderFault::Levels { part }));
    }
    Ok(Some(tiles))
}

/// The header with these attributes.
#[tactic(auto, unfolding(crate::specs::Judging::picture_of))]
pub(crate) fn picture_of(
    alloc: Global,
    part: u32,
    kind: PartKind,
    attributes: AttributeMap,
) -> Result<Header, Refusal<HeaderFault>>
    ensures exact { Gives (λ header. header) result (picture_of part kind attributes) }
    ensures picture { IfOk result IsPicture }
{
    let channels = channels_judged(alloc, part, value(Field::Channels, &attributes))?;
    let method = method_judged(part, kind, byte(value(Field::Compression, &attributes), 0))?;
    let order = order_judged(part, kind, byte(value(Field::LineOrder, &attributes), 0))?;
    let window = window_judged(part, box_of(value(Field::DataWindow, &attributes)))?;
    let tiles = tiles_judged(part, kind, tiles_of(value(Field::Tiles, &attributes)))?;
    Ok(Header {
        attributes,
        kind,
        channels,
        method,
        window,
        order,
        tiles,
    })
}
