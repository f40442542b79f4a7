//! What can be wrong with the headers of a file. Offsets count bytes from the start of the input; parts and channels
//! count from 0.

ghost use Rattle.std.specs.Prelude.{◌≡◌};
ghost use Rattle.exr_attributes.specs.Fault.{number_of};

use thiserror::Error;

/// The attributes that a header needs, and those that are validated where they are present.
///
/// File Layout, "Header Attributes (All Files)", "Header Attributes for Tile Parts" and "Header Attributes for
/// Multi-Part and Deep Data Files".
#[derive(Clone, Copy, Debug, PartialEq, Eq)]
pub enum Field {
    Channels,
    Compression,
    DataWindow,
    DisplayWindow,
    LineOrder,
    PixelAspectRatio,
    ScreenWindowCenter,
    ScreenWindowWidth,
    Tiles,
    PartType,
    PartName,
    ChunkCount,
    Version,
}

/// The limits of a head, which is all headers of a file (own).
#[derive(Clone, Copy, Debug, PartialEq, Eq)]
pub enum Bound {
    /// 2^24 bytes.
    HeadBytes,
    /// 1,024 parts.
    Parts,
    /// 1,024 channels of a part.
    Channels,
    /// Coordinates of the data window within 2^30 of 0.
    Coordinates,
    /// Sides of the data window of 2^20 pixels.
    Side,
    /// 2^20 chunks of all parts together.
    Chunks,
    /// 2^26 raw bytes of a chunk; of a deep chunk, of its sample count table.
    RawChunk,
}

/// Why the headers of a file are invalid: the first fault from the front (own).
#[derive(Clone, Copy, Debug, PartialEq, Eq, Error)]
pub enum HeaderFault {
    /// The input ends at `at`, within the headers.
    #[error("the head ends at {at}")]
    Truncated { at: u64 },
    /// A name that begins at `at` has more than 255 bytes, or a type's name is empty.
    #[error("no name at {at}")]
    BadName { at: u64 },
    /// The attribute size at `at` is negative.
    #[error("a negative size at {at}")]
    BadSize { at: u64 },
    /// The attribute that begins at `at` has the name of an earlier one of its header.
    #[error("a second attribute of one name at {at}")]
    Twice { at: u64 },
    /// The first four bytes are not the magic number.
    #[error("not an OpenEXR file")]
    BadMagic,
    /// The version is not 2, or a bit is set that has no meaning.
    #[error("unknown version {word}")]
    BadVersion { word: u32 },
    /// A required attribute is missing.
    #[error("part {part}: an attribute is missing")]
    Missing { part: u32, field: Field },
    /// An attribute does not have the type of its name.
    #[error("part {part}: an attribute has another type")]
    WrongType { part: u32, field: Field },
    /// The channel list is malformed, or its names are not in increasing order.
    #[error("part {part}: no channel list")]
    BadChannels { part: u32 },
    /// The data window is empty.
    #[error("part {part}: an empty data window")]
    BadWindow { part: u32 },
    /// A sampling does not fit the data window or the kind of part.
    #[error("part {part}: the sampling of channel {channel}")]
    BadSampling { part: u32, channel: u32 },
    /// The tile description is malformed: a tile's side, the level mode or the rounding mode is out of range.
    #[error("part {part}: no tile description")]
    BadTiles { part: u32 },
    /// The compression method is unknown, or not one of a deep part.
    #[error("part {part}: unknown compression {number}")]
    UnknownCompression { part: u32, number: u8 },
    /// The line order is unknown, or random in a part of scan lines.
    #[error("part {part}: line order {number}")]
    BadLineOrder { part: u32, number: u8 },
    /// The type of part is unknown, or not the kind that was given.
    #[error("part {part}: the type of part")]
    BadPartType { part: u32 },
    /// The part has the name of an earlier one.
    #[error("part {part}: a second part of one name")]
    TwicePart { part: u32 },
    /// `chunkCount` differs from the number of chunks that the windows and the method give.
    #[error("part {part}: {said} chunks are said, {computed} computed")]
    ChunkCount { part: u32, said: i32, computed: u32 },
    /// A limit is exceeded.
    #[error("past a limit")]
    Limit(Bound),
    /// The part is tiled in more than one level.
    #[error("part {part}: levels")]
    Levels { part: u32 },
    /// The version of deep data is not 1.
    #[error("part {part}: deep data of version {said}")]
    BadDeepVersion { part: u32, said: i32 },
    /// The value does not have its type's size.
    #[error("part {part}: the size of an attribute")]
    FieldSize { part: u32, field: Field },
}

impl HeaderFault {
    /// The number by which the program names the fault, 1 to 21 (own).
    pub fn number(self) -> u8
        ensures { result ≡ number_of self }
    {
        match self {
            HeaderFault::Truncated { .. } => 1,
            HeaderFault::BadName { .. } => 2,
            HeaderFault::BadSize { .. } => 3,
            HeaderFault::Twice { .. } => 4,
            HeaderFault::BadMagic => 5,
            HeaderFault::BadVersion { .. } => 6,
            HeaderFault::Missing { .. } => 7,
            HeaderFault::WrongType { .. } => 8,
            HeaderFault::BadChannels { .. } => 9,
            HeaderFault::BadWindow { .. } => 10,
            HeaderFault::BadSampling { .. } => 11,
            HeaderFault::BadTiles { .. } => 12,
            HeaderFault::UnknownCompression { .. } => 13,
            HeaderFault::BadLineOrder { .. } => 14,
            HeaderFault::BadPartType { .. } => 15,
            HeaderFault::TwicePart { .. } => 16,
            HeaderFault::ChunkCount { .. } => 17,
            HeaderFault::Limit(_) => 18,
            HeaderFault::Levels { .. } => 19,
            HeaderFault::BadDeepVersion { .. } => 20,
            HeaderFault::FieldSize { .. } => 21,
        }
    }
}
