//! What a header says of a picture, and the attributes that say it.

use crate::attributes::put_attribute;
use exr_base::NoMemory;
use std::alloc::Global;

/// A channel as a header lists it.
#[derive(Clone, Copy)]
pub struct ChannelSpec<'a> {
    pub name: &'a [u8],
    /// 0 for UINT, 1 for HALF, 2 for FLOAT.
    pub kind: u32,
    /// The byte `pLinear`.
    pub linear: u8,
    /// A sample at each so many columns, and at each so many lines.
    pub sampling: (u32, u32),
}

/// The HALF channel `Y` with a sample at each pixel.
pub const Y: ChannelSpec<'static> = ChannelSpec {
    name: b"Y",
    kind: 1,
    linear: 0,
    sampling: (1, 1),
};

/// What a header says of a picture.
#[derive(Clone, Copy)]
pub struct Picture<'a> {
    /// The channels as they are listed; a reader wants their names in rising order.
    pub channels: &'a [ChannelSpec<'a>],
    /// The data window, and the display window: the first column and line, and the last ones.
    pub window: [i32; 4],
    /// The number of the compression method: 0 for none.
    pub method: u8,
    /// The line order: 0 for increasing, 1 for decreasing, 2 for random.
    pub order: u8,
    /// The width and height of tiles of one level; None for scan lines.
    pub tiles: Option<(u32, u32)>,
}

/// One pixel at (0, 0) of the channel `Y`, in scan lines without compression.
pub const ONE_PIXEL: Picture<'static> = Picture {
    channels: &[Y],
    window: [0, 0, 0, 0],
    method: 0,
    order: 0,
    tiles: None,
};

/// Appends an entry of a channel list.
///
/// File Layout, "Predefined Attribute Types", `chlist`.
fn put_channel(to: &mut Vec<u8>, channel: &ChannelSpec) -> Result<(), NoMemory> {
    to.extend_from_slice(channel.name)?;
    to.push(0)?;
    to.extend_from_slice(&channel.kind.to_le_bytes())?;
    to.extend_from_slice(&[channel.linear, 0, 0, 0])?;
    to.extend_from_slice(&channel.sampling.0.to_le_bytes())?;
    to.extend_from_slice(&channel.sampling.1.to_le_bytes())?;
    Ok(())
}

/// The value of a `chlist`.
fn channel_list(alloc: Global, channels: &[ChannelSpec]) -> Result<Vec<u8>, NoMemory> {
    let mut list = Vec::new(alloc);
    for channel in channels {
        put_channel(&mut list, channel)?;
    }
    list.push(0)?;
    Ok(list)
}

/// The value of a `box2i`.
fn box_value(alloc: Global, corners: [i32; 4]) -> Result<Vec<u8>, NoMemory> {
    let mut value = Vec::new(alloc);
    for corner in corners {
        value.extend_from_slice(&corner.to_le_bytes())?;
    }
    Ok(value)
}

/// Appends the attribute `tiles`, of one level.
fn put_tiles(to: &mut Vec<u8>, (width, height): (u32, u32)) -> Result<(), NoMemory> {
    to.extend_from_slice(b"tiles\0tiledesc\0\x09\0\0\0")?;
    to.extend_from_slice(&width.to_le_bytes())?;
    to.extend_from_slice(&height.to_le_bytes())?;
    to.push(0)?;
    Ok(())
}

/// The attributes that each header has, in the order of their names, and `tiles` where the picture is in tiles. More can
/// follow, and then a zero that ends the header.
///
/// File Layout, "Predefined Attributes" and "Component Three: Header".
pub fn picture_attributes(alloc: Global, picture: &Picture) -> Result<Vec<u8>, NoMemory> {
    let window = box_value(alloc, picture.window)?;
    let mut to = Vec::new(alloc);
    put_attribute(
        &mut to,
        b"channels",
        b"chlist",
        &channel_list(alloc, picture.channels)?,
    )?;
    put_attribute(&mut to, b"compression", b"compression", &[picture.method])?;
    put_attribute(&mut to, b"dataWindow", b"box2i", &window)?;
    put_attribute(&mut to, b"displayWindow", b"box2i", &window)?;
    put_attribute(&mut to, b"lineOrder", b"lineOrder", &[picture.order])?;
    to.extend_from_slice(
        b"pixelAspectRatio\0float\0\x04\0\0\0\0\0\x80?screenWindowCenter\0v2f\0\
          \x08\0\0\0\0\0\0\0\0\0\0\0screenWindowWidth\0float\0\x04\0\0\0\0\0\x80?",
    )?;
    if let Some(tiles) = picture.tiles {
        put_tiles(&mut to, tiles)?;
    }
    Ok(to)
}
