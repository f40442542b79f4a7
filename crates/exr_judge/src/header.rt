//! The header of a part: its attributes, and the values of those that are required.

ghost use Rattle.std.specs.Prelude.{◌≡◌};
ghost use Rattle.std.specs.Option.{option_copied};
ghost use Rattle.exr_judge.specs.Name.{part_name_of};

use crate::channels::Channels;
use crate::kind::{LineOrder, PartKind, Tiles};
use exr_attributes::AttributeMap;
use exr_base::{Box2i, Channel, Method};

/// The header of a part. Its kind, channels, windows and tiles are the values of its attributes.
///
/// File Layout, "Header Attributes (All Files)".
#[derive(Drop, Debug)]
pub struct Header {
    pub(crate) attributes: AttributeMap,
    pub(crate) kind: PartKind,
    pub(crate) channels: Channels,
    pub(crate) method: Method,
    pub(crate) window: Box2i,
    pub(crate) order: LineOrder,
    pub(crate) tiles: Option<Tiles>,
}

impl Header {
    /// All attributes in the order of the file, the required ones among them.
    pub fn attributes(&self) -> &AttributeMap
        ensures { result.now ≡ self.now.attributes }
    {
        &self.attributes
    }

    /// The kind of part.
    pub fn kind(&self) -> PartKind
        ensures { result ≡ self.now.kind }
    {
        self.kind
    }

    /// The channels in increasing order of their names, at most 1,024.
    pub fn channels(&self) -> &[Channel]
        ensures { result.now ≡ self.now.channels }
    {
        self.channels.as_slice()
    }

    /// The compression method.
    pub fn method(&self) -> Method
        ensures { result ≡ self.now.method }
    {
        self.method
    }

    /// The data window.
    pub fn window(&self) -> Box2i
        ensures { result ≡ self.now.window }
    {
        self.window
    }

    /// The order of the chunks in the file.
    pub fn order(&self) -> LineOrder
        ensures { result ≡ self.now.order }
    {
        self.order
    }

    /// The tile description; `None` exactly in a part of scan lines.
    pub fn tiles(&self) -> Option<Tiles>
        ensures { result ≡ self.now.tiles }
    {
        self.tiles
    }

    /// The value of the attribute `name` of type `string`; `None` exactly where there is none (a `name` of another type is
    /// no name: own).
    pub fn part_name(&self) -> Option<&[u8]>
        ensures { option_copied result ≡ part_name_of self.now.attributes }
    {
        match self.attributes.find(b"name") {
            Some(attribute) if attribute.kind.bytes() == b"string".as_slice() => {
                Some(attribute.value.bytes())
            }
            _ => None,
        }
    }
}
