//! The channels of a part and the pixel types of their samples.

ghost use Rattle.std.specs.Prelude.{◌≡◌, ◌<◌, length, position, IfOk, IfSome};
ghost use Rattle.exr_base.specs.Channel.{bytes_of, is_named};

use crate::name::Name;
use crate::refusal::NoMemory;
use std::alloc::Global;

/// The pixel type of a channel. Samples are carried as bits; nothing computes with them as numbers.
///
/// File Layout, "Predefined Attribute Types": the pixel types of a channel list.
#[derive(Clone, Copy, Debug, PartialEq, Eq)]
pub enum Kind {
    /// 32 bits, an unsigned number.
    Uint,
    /// 16 bits, a half.
    Half,
    /// 32 bits, a single-precision float.
    Float,
}

impl Kind {
    /// The bytes of one sample.
    pub fn bytes(self) -> usize
        ensures { result ≡ bytes_of self }
    {
        match self {
            Kind::Uint => 4,
            Kind::Half => 2,
            Kind::Float => 4,
        }
    }
}

/// One entry of a channel list.
///
/// File Layout, "Predefined Attribute Types": chlist.
#[derive(Drop, Debug)]
pub struct Channel {
    pub name: Name,
    pub kind: Kind,
    /// The pLinear byte: not 0 is a hint to lossy methods that the samples are perceptually linear.
    pub linear: u8,
    /// The channel has samples only where x is a multiple of this.
    pub xs: u32,
    /// The channel has samples only where y is a multiple of this.
    pub ys: u32,
}

impl Channel {
    /// The same channel again.
    pub fn copy(&self) -> Result<Channel, NoMemory>
        ensures { IfOk result (λ copy. copy ≡ self.now) }
    {
        Ok(Channel {
            name: self.name.clone()?,
            kind: self.kind,
            linear: self.linear,
            xs: self.xs,
            ys: self.ys,
        })
    }
}

/// The same channels again, in the same order.
pub fn copy_channels(alloc: Global, channels: &[Channel]) -> Result<Vec<Channel>, NoMemory>
    ensures { IfOk result (λ copies. copies.items ≡ channels.now) }
{
    let mut copies = Vec::with_capacity(alloc, channels.len())?;
    for channel in channels {
        copies.push(channel.copy()?)?;
    }
    Ok(copies)
}

/// The place of the first channel of a name.
pub fn find_channel(channels: &[Channel], name: &Name) -> Option<usize>
    ensures exact { result ≡ position (is_named name.now) channels.now }
    ensures within { IfSome result (λ place. place < length channels.now) }
{
    channels.iter().position(|channel| channel.name == *name)
}
