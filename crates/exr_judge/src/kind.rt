//! Kinds of parts, line orders, and tile descriptions.

ghost use Rattle.std.specs.Prelude.{◌≡◌};
ghost use Rattle.exr_judge.specs.Kind.{is_tiled, is_deep, kind_named};

/// The kind of a part, which decides the layout of its chunks.
///
/// File Layout, "Header Attributes for Multi-Part and Deep Data Files": type.
#[derive(Clone, Copy, Debug, PartialEq, Eq)]
pub enum PartKind {
    /// Blocks of scan lines.
    Scan,
    /// Tiles.
    Tiled,
    /// Blocks of scan lines with any number of samples at each pixel.
    DeepScan,
    /// Tiles with any number of samples at each pixel.
    DeepTiled,
}

/// The order in which a writer put the chunks of a part into the file.
///
/// File Layout, "Predefined Attribute Types": lineOrder.
#[derive(Clone, Copy, Debug, PartialEq, Eq)]
pub enum LineOrder {
    Increasing,
    Decreasing,
    /// Any order; for tiles only.
    Random,
}

/// The tile description of a part: the sides of a tile in pixels, the level mode, and the rounding of levels.
///
/// File Layout, "Predefined Attribute Types": tiledesc.
#[derive(Clone, Copy, Debug, PartialEq, Eq)]
pub struct Tiles {
    pub xsize: u32,
    pub ysize: u32,
    /// 0 one level, 1 mipmap, 2 ripmap.
    pub mode: u8,
    /// 0 down, 1 up.
    pub rounding: u8,
}

/// The bits of a version word in whose presence the attribute `type` gives the kind of each part.
///
/// File Layout, "Components One and Two: Magic Number and Version Field": bits 11 and 12.
#[derive(Clone, Copy, Debug, PartialEq, Eq)]
pub struct Flags {
    /// The file is a multi-part file.
    pub multi: bool,
    /// The file has deep data.
    pub deep: bool,
}

impl PartKind {
    /// Whether the part is tiled.
    pub fn is_tiled(self) -> bool
        ensures { result ≡ is_tiled self }
    {
        match self {
            PartKind::Scan | PartKind::DeepScan => false,
            PartKind::Tiled | PartKind::DeepTiled => true,
        }
    }

    /// Whether the part is deep: it has any number of samples at each pixel.
    pub fn is_deep(self) -> bool
        ensures { result ≡ is_deep self }
    {
        match self {
            PartKind::Scan | PartKind::Tiled => false,
            PartKind::DeepScan | PartKind::DeepTiled => true,
        }
    }

    /// The kind that a value of `type` names; `None` exactly where it names none.
    pub fn named(text: &[u8]) -> Option<PartKind>
        ensures { result ≡ kind_named text.now }
    {
        if text == b"scanlineimage".as_slice() {
            return Some(PartKind::Scan);
        }
        if text == b"tiledimage".as_slice() {
            return Some(PartKind::Tiled);
        }
        if text == b"deepscanline".as_slice() {
            return Some(PartKind::DeepScan);
        }
        if text == b"deeptile".as_slice() {
            return Some(PartKind::DeepTiled);
        }
        None
    }
}
