//! The required attributes: whether they are present, with the type and size of their name.

ghost use Rattle.std.specs.Prelude.{◌≡◌};
ghost use Rattle.exr_base.specs.Refusal.{Gives};
ghost use Rattle.exr_judge.specs.Fields.{name_of_field, type_of_field, size_of_field, fits_size, value_of, is_there, typed, needed_at, optional_at, first_fields, other_fields, file_fields, all_fields};

use crate::kind::{Flags, PartKind};
use exr_attributes::{Attribute, AttributeMap, Field, HeaderFault};
use exr_base::Refusal;

/// The name of a required attribute.
fn name_of(field: Field) -> &'static [u8]
    ensures { result.now ≡ name_of_field field }
{
    match field {
        Field::Channels => b"channels",
        Field::Compression => b"compression",
        Field::DataWindow => b"dataWindow",
        Field::DisplayWindow => b"displayWindow",
        Field::LineOrder => b"lineOrder",
        Field::PixelAspectRatio => b"pixelAspectRatio",
        Field::ScreenWindowCenter => b"screenWindowCenter",
        Field::ScreenWindowWidth => b"screenWindowWidth",
        Field::Tiles => b"tiles",
        Field::PartType => b"type",
        Field::PartName => b"name",
        Field::ChunkCount => b"chunkCount",
        Field::Version => b"version",
    }
}

/// The name of its type.
fn type_of(field: Field) -> &'static [u8]
    ensures { result.now ≡ type_of_field field }
{
    match field {
        Field::Channels => b"chlist",
        Field::Compression => b"compression",
        Field::DataWindow | Field::DisplayWindow => b"box2i",
        Field::LineOrder => b"lineOrder",
        Field::PixelAspectRatio | Field::ScreenWindowWidth => b"float",
        Field::ScreenWindowCenter => b"v2f",
        Field::Tiles => b"tiledesc",
        Field::PartType | Field::PartName => b"string",
        Field::ChunkCount | Field::Version => b"int",
    }
}

/// The size of its value, where its type has one.
fn size_of(field: Field) -> Option<usize>
    ensures { result ≡ size_of_field field }
{
    match field {
        Field::Channels | Field::PartType | Field::PartName => None,
        Field::Compression | Field::LineOrder => Some(1),
        Field::DataWindow | Field::DisplayWindow => Some(16),
        Field::ScreenWindowCenter => Some(8),
        Field::PixelAspectRatio | Field::ScreenWindowWidth => Some(4),
        Field::ChunkCount | Field::Version => Some(4),
        Field::Tiles => Some(9),
    }
}

/// Whether a value of a field may have `len` bytes.
fn fits(field: Field, len: usize) -> bool
    ensures { result ≡ fits_size (size_of_field field) len }
{
    match size_of(field) {
        Some(size) => len == size,
        None => true,
    }
}

/// The value of a field, empty where it is missing.
pub(crate) fn value<'a>(field: Field, map: &'a AttributeMap) -> &'a [u8]
    ensures { result.now ≡ value_of field map.now }
{
    match map.find(name_of(field)) {
        Some(attribute) => attribute.value.bytes(),
        None => &[],
    }
}

/// Whether a field's attribute is present.
pub(crate) fn is_there(field: Field, map: &AttributeMap) -> bool
    ensures { result ≡ is_there field map.now }
{
    map.find(name_of(field)).is_some()
}

/// The value of an attribute with the field's type and size.
#[tactic(auto, unfolding(crate::specs::Fields::typed))]
fn typed<'a>(
    part: u32,
    field: Field,
    attribute: &'a Attribute,
) -> Result<&'a [u8], Refusal<HeaderFault>>
    ensures { Gives (λ value. value.now) result (typed part field attribute.now) }
{
    if attribute.kind.bytes() != type_of(field) {
        return Err(Refusal::Fault(HeaderFault::WrongType { part, field }));
    }
    let value = attribute.value.bytes();
    if !fits(field, value.len()) {
        return Err(Refusal::Fault(HeaderFault::FieldSize { part, field }));
    }
    Ok(value)
}

/// The value of a required attribute.
#[tactic(auto, unfolding(crate::specs::Fields::needed_at))]
pub(crate) fn needed<'a>(
    part: u32,
    field: Field,
    map: &'a AttributeMap,
) -> Result<&'a [u8], Refusal<HeaderFault>>
    ensures { Gives (λ value. value.now) result (needed_at part field map.now) }
{
    match map.find(name_of(field)) {
        Some(attribute) => typed(part, field, attribute),
        None => Err(Refusal::Fault(HeaderFault::Missing { part, field })),
    }
}

/// The value of an attribute that may be missing, empty where it is.
#[tactic(auto, unfolding(crate::specs::Fields::optional_at))]
fn optional<'a>(
    part: u32,
    field: Field,
    map: &'a AttributeMap,
) -> Result<&'a [u8], Refusal<HeaderFault>>
    ensures { Gives (λ value. value.now) result (optional_at part field map.now) }
{
    match map.find(name_of(field)) {
        Some(attribute) => typed(part, field, attribute),
        None => Ok(&[]),
    }
}

/// Validates the first four that every part needs.
#[tactic(auto, unfolding(crate::specs::Fields::first_fields))]
fn first_fields<'a>(part: u32, map: &'a AttributeMap) -> Result<&'a [u8], Refusal<HeaderFault>>
    ensures { Gives (λ value. value.now) result (first_fields part map.now) }
{
    let _ = needed(part, Field::Channels, map)?;
    let _ = needed(part, Field::Compression, map)?;
    let _ = needed(part, Field::DataWindow, map)?;
    needed(part, Field::DisplayWindow, map)
}

/// Validates the other four.
#[tactic(auto, unfolding(crate::specs::Fields::other_fields))]
fn other_fields<'a>(part: u32, map: &'a AttributeMap) -> Result<&'a [u8], Refusal<HeaderFault>>
    ensures { Gives (λ value. value.now) result (other_fields part map.now) }
{
    let _ = needed(part, Field::LineOrder, map)?;
    let _ = needed(part, Field::PixelAspectRatio, map)?;
    let _ = needed(part, Field::ScreenWindowCenter, map)?;
    needed(part, Field::ScreenWindowWidth, map)
}

/// Validates those of multi-part files and of deep files.
#[tactic(auto, unfolding(crate::specs::Fields::file_fields))]
fn file_fields<'a>(
    flags: Flags,
    part: u32,
    map: &'a AttributeMap,
) -> Result<&'a [u8], Refusal<HeaderFault>>
    ensures { Gives (λ value. value.now) result (file_fields flags part map.now) }
{
    if flags.multi {
        let _ = needed(part, Field::PartName, map)?;
        needed(part, Field::ChunkCount, map)
    } else if flags.deep {
        let _ = optional(part, Field::PartName, map)?;
        optional(part, Field::ChunkCount, map)
    } else {
        Ok(&[])
    }
}

/// Validates that the required attributes of a part are present, with their types and sizes, in this order.
#[tactic(auto, unfolding(crate::specs::Fields::all_fields))]
pub(crate) fn all_fields<'a>(
    flags: Flags,
    part: u32,
    kind: PartKind,
    map: &'a AttributeMap,
) -> Result<&'a [u8], Refusal<HeaderFault>>
    ensures { Gives (λ value. value.now) result (all_fields flags part kind map.now) }
{
    let _ = first_fields(part, map)?;
    let _ = other_fields(part, map)?;
    if kind.is_tiled() {
        let _ = needed(part, Field::Tiles, map)?;
    }
    let _ = file_fields(flags, part, map)?;
    if kind.is_deep() {
        needed(part, Field::Version, map)
    } else {
        Ok(&[])
    }
}
