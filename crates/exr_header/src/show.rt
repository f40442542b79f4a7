//! The text of a head, as `exr header` prints it.

ghost use Rattle.std.specs.Prelude.{◌≡◌, ◌<◌, ◌++◌, OnOk, IfOk};
ghost use Rattle.std.specs.List.{flat_map};
ghost use Rattle.std.specs.Fmt.{decimal, signed_decimal};
ghost use Rattle.exr_judge.specs.Name.{part_name_of};
ghost use Rattle.exr_judge.specs.Picture.{IsPicture};
ghost use Rattle.exr_header.specs.Show.{hex_digit, escaped_byte, escaped, kind_text, order_number, sample_number, name_text, part_front, part_method, corner, part_window, part_chunks, tiles_line, channel_front, channel_sampling, channel_line, entry_line, part_text, head_line, head_text};

use crate::head::FileHead;
use exr_attributes::Entry;
use exr_base::{Channel, Kind, NoMemory};
use exr_judge::{Header, LineOrder, PartKind, Tiles, chunk_count};
use std::alloc::Global;

/// A digit to the base 16, in lower case.
fn hex_digit(digit: u8) -> u8
    requires { digit < 16 }
    ensures { result ≡ hex_digit digit }
{
    if digit < 10 { digit + 48 } else { digit + 87 }
}

/// Appends a byte of a name, escaped where it is not printable.
fn put_byte(byte: u8, to: &mut Vec<u8>) -> Result<(), NoMemory>
    ensures { OnOk result (to.new.items ≡ to.old.items ++ escaped_byte byte) }
{
    if byte >= 0x21 && byte <= 0x7e && byte != b'\\' {
        to.push(byte)?;
        return Ok(());
    }
    to.extend_from_slice(&[b'\\', b'x', hex_digit(byte / 16), hex_digit(byte % 16)])?;
    Ok(())
}

/// Appends a name.
fn put_name(name: &[u8], to: &mut Vec<u8>) -> Result<(), NoMemory>
    ensures { OnOk result (to.new.items ≡ to.old.items ++ escaped name.now) }
{
    for byte in name {
        put_byte(*byte, to)?;
    }
    Ok(())
}

/// Appends a number.
fn put_number(alloc: Global, number: u64, to: &mut Vec<u8>) -> Result<(), NoMemory>
    ensures { OnOk result (to.new.items ≡ to.old.items ++ decimal number) }
{
    let text = format!(in alloc; "{number}")?;
    to.extend_from_slice(text.as_bytes())?;
    Ok(())
}

/// Appends a number with a sign.
fn put_int(alloc: Global, number: i32, to: &mut Vec<u8>) -> Result<(), NoMemory>
    ensures { OnOk result (to.new.items ≡ to.old.items ++ signed_decimal number) }
{
    let text = format!(in alloc; "{number}")?;
    to.extend_from_slice(text.as_bytes())?;
    Ok(())
}

/// The name of a kind of part.
fn kind_text(kind: PartKind) -> &'static [u8]
    ensures { result.now ≡ kind_text kind }
{
    match kind {
        PartKind::Scan => b"scan",
        PartKind::Tiled => b"tiles",
        PartKind::DeepScan => b"deepscan",
        PartKind::DeepTiled => b"deeptiles",
    }
}

/// The number of a line order.
fn order_number(order: LineOrder) -> u64
    ensures { result ≡ order_number order }
{
    match order {
        LineOrder::Increasing => 0,
        LineOrder::Decreasing => 1,
        LineOrder::Random => 2,
    }
}

/// The number of a kind of samples.
fn sample_number(kind: Kind) -> u64
    ensures { result ≡ sample_number kind }
{
    match kind {
        Kind::Uint => 0,
        Kind::Half => 1,
        Kind::Float => 2,
    }
}

/// Appends the name of a part, or a dash.
fn put_part_name(header: &Header, to: &mut Vec<u8>) -> Result<(), NoMemory>
    ensures { OnOk result (to.new.items ≡ to.old.items ++ name_text (part_name_of header.now.attributes)) }
{
    match header.part_name() {
        Some(name) => put_name(name, to),
        None => {
            to.extend_from_slice(b"-")?;
            Ok(())
        }
    }
}

/// Appends the front of a part's line.
fn put_front(alloc: Global, part: u64, header: &Header, to: &mut Vec<u8>) -> Result<(), NoMemory>
    ensures { OnOk result (to.new.items ≡ to.old.items ++ part_front part header.now) }
{
    to.extend_from_slice(b"part ")?;
    put_number(alloc, part, to)?;
    to.extend_from_slice(b" ")?;
    to.extend_from_slice(kind_text(header.kind()))?;
    to.extend_from_slice(b" name ")?;
    put_part_name(header, to)
}

/// Appends the method and the order.
fn put_method(alloc: Global, header: &Header, to: &mut Vec<u8>) -> Result<(), NoMemory>
    ensures { OnOk result (to.new.items ≡ to.old.items ++ part_method header.now) }
{
    to.extend_from_slice(b" method ")?;
    put_number(alloc, u64::from(header.method().number()), to)?;
    to.extend_from_slice(b" order ")?;
    put_number(alloc, order_number(header.order()), to)
}

/// Appends a corner of a window.
fn put_corner(alloc: Global, x: i32, y: i32, to: &mut Vec<u8>) -> Result<(), NoMemory>
    ensures { OnOk result (to.new.items ≡ to.old.items ++ corner x y) }
{
    to.extend_from_slice(b" ")?;
    put_int(alloc, x, to)?;
    to.extend_from_slice(b" ")?;
    put_int(alloc, y, to)
}

/// Appends the data window.
fn put_window(alloc: Global, header: &Header, to: &mut Vec<u8>) -> Result<(), NoMemory>
    ensures { OnOk result (to.new.items ≡ to.old.items ++ part_window header.now) }
{
    to.extend_from_slice(b" window")?;
    let window = header.window();
    put_corner(alloc, window.x0, window.y0, to)?;
    put_corner(alloc, window.x1, window.y1, to)?;
    Ok(())
}

/// Appends the number of chunks.
fn put_chunks(alloc: Global, header: &Header, to: &mut Vec<u8>) -> Result<(), NoMemory>
    requires { IsPicture header.now }
    ensures { OnOk result (to.new.items ≡ to.old.items ++ part_chunks header.now) }
{
    to.extend_from_slice(b" chunks ")?;
    put_number(alloc, chunk_count(header), to)?;
    to.extend_from_slice(b"\n")?;
    Ok(())
}

/// Appends the line of the tile description, where there is one.
fn put_tiles(alloc: Global, tiles: Option<Tiles>, to: &mut Vec<u8>) -> Result<(), NoMemory>
    ensures { OnOk result (to.new.items ≡ to.old.items ++ tiles_line tiles) }
{
    let Some(tiles) = tiles else {
        return Ok(());
    };
    to.extend_from_slice(b"tiles ")?;
    put_number(alloc, u64::from(tiles.xsize), to)?;
    to.extend_from_slice(b" ")?;
    put_number(alloc, u64::from(tiles.ysize), to)?;
    to.extend_from_slice(b" mode ")?;
    put_number(alloc, u64::from(tiles.mode), to)?;
    to.extend_from_slice(b" rounding ")?;
    put_number(alloc, u64::from(tiles.rounding), to)?;
    to.extend_from_slice(b"\n")?;
    Ok(())
}

/// Appends the front of a channel's line.
fn put_channel_front(alloc: Global, channel: &Channel, to: &mut Vec<u8>) -> Result<(), NoMemory>
    ensures { OnOk result (to.new.items ≡ to.old.items ++ channel_front channel.now) }
{
    to.extend_from_slice(b"channel ")?;
    put_name(channel.name.bytes(), to)?;
    to.extend_from_slice(b" kind ")?;
    put_number(alloc, sample_number(channel.kind), to)?;
    to.extend_from_slice(b" linear ")?;
    put_number(alloc, u64::from(channel.linear), to)
}

/// Appends the samplings of a channel.
fn put_sampling(alloc: Global, channel: &Channel, to: &mut Vec<u8>) -> Result<(), NoMemory>
    ensures { OnOk result (to.new.items ≡ to.old.items ++ channel_sampling channel.now) }
{
    to.extend_from_slice(b" sampling ")?;
    put_number(alloc, u64::from(channel.xs), to)?;
    to.extend_from_slice(b" ")?;
    put_number(alloc, u64::from(channel.ys), to)?;
    to.extend_from_slice(b"\n")?;
    Ok(())
}

/// Appends the line of a channel.
fn put_channel(alloc: Global, channel: &Channel, to: &mut Vec<u8>) -> Result<(), NoMemory>
    ensures { OnOk result (to.new.items ≡ to.old.items ++ channel_line channel.now) }
{
    put_channel_front(alloc, channel, to)?;
    put_sampling(alloc, channel, to)
}

/// Appends the line of an attribute.
fn put_entry(alloc: Global, entry: &Entry, to: &mut Vec<u8>) -> Result<(), NoMemory>
    ensures { OnOk result (to.new.items ≡ to.old.items ++ entry_line entry.now) }
{
    to.extend_from_slice(b"attribute ")?;
    put_name(entry.name.bytes(), to)?;
    to.extend_from_slice(b" ")?;
    put_name(entry.attribute.kind.bytes(), to)?;
    to.extend_from_slice(b" ")?;
    put_number(alloc, entry.attribute.value.bytes().len() as u64, to)?;
    to.extend_from_slice(b"\n")?;
    Ok(())
}

/// Appends the lines of the channels.
fn put_channels(alloc: Global, channels: &[Channel], to: &mut Vec<u8>) -> Result<(), NoMemory>
    ensures { OnOk result (to.new.items ≡ to.old.items ++ flat_map channel_line channels.now) }
{
    for channel in channels {
        put_channel(alloc, channel, to)?;
    }
    Ok(())
}

/// Appends the lines of the attributes.
fn put_entries(alloc: Global, entries: &[Entry], to: &mut Vec<u8>) -> Result<(), NoMemory>
    ensures { OnOk result (to.new.items ≡ to.old.items ++ flat_map entry_line entries.now) }
{
    for entry in entries {
        put_entry(alloc, entry, to)?;
    }
    Ok(())
}

/// Appends the lines of a part.
fn put_part(alloc: Global, part: u64, header: &Header, to: &mut Vec<u8>) -> Result<(), NoMemory>
    requires { IsPicture header.now }
    ensures { OnOk result (to.new.items ≡ to.old.items ++ part_text part header.now) }
{
    put_front(alloc, part, header, to)?;
    put_method(alloc, header, to)?;
    put_window(alloc, header, to)?;
    put_chunks(alloc, header, to)?;
    put_tiles(alloc, header.tiles(), to)?;
    put_channels(alloc, header.channels(), to)?;
    put_entries(alloc, header.attributes().entries(), to)
}

/// Appends the first line.
fn put_head(alloc: Global, head: &FileHead, to: &mut Vec<u8>) -> Result<(), NoMemory>
    ensures { OnOk result (to.new.items ≡ to.old.items ++ head_line head.now) }
{
    to.extend_from_slice(b"exr ")?;
    if head.multi() {
        to.extend_from_slice(b"multi")?;
    } else {
        to.extend_from_slice(b"single")?;
    }
    to.extend_from_slice(b" parts ")?;
    put_number(alloc, head.parts().len() as u64, to)?;
    to.extend_from_slice(b"\n")?;
    Ok(())
}

/// The text of a head: a line for the file, then for each part its line, one for its tiles, one for each channel and
/// one for each attribute. In names a byte outside 0x21 to 0x7e, and a backslash, is \x and two digits.
pub fn show_head(alloc: Global, head: &FileHead) -> Result<Vec<u8>, NoMemory>
    ensures { IfOk result (λ text. text.items ≡ head_text head.now) }
{
    let mut to = Vec::new(alloc);
    put_head(alloc, head, &mut to)?;
    let parts = head.parts();
    for i in 0..parts.len() {
        put_part(alloc, i as u64, &parts[i], &mut to)?;
    }
    Ok(to)
}
