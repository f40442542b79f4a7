//! The channels of a part, and parsing a channel list.

ghost use Rattle.exr_base.specs.Shape.{IsSampled};
ghost use Rattle.std.specs.Prelude.{◌≡◌, ◌==◌, All, ◌≤◌, ◌<◌, length, position, IfOk, IfSome, OnSome};
ghost use Rattle.std.specs.Option.{option_map};
ghost use Rattle.exr_judge.specs.Channels.{kind_numbered, is_sampling, channel_named, channel_at, last_name, above_only, next_channel, channels_of};
ghost use Rattle.exr_judge.specs.Next.{next_of, NextIsSampled};

use crate::words::{byte, word};
use exr_base::{Channel, Kind, Name, NoMemory};
use std::alloc::Global;
use std::cmp::Ordering;
use std::marker::Model;

/// The channels of a part, in increasing order of their names.
///
/// File Layout, "Predefined Attribute Types": chlist.
#[derive(Drop, Debug)]
pub struct Channels {
    all: Vec<Channel>,
}

impl Model for Channels {
    ghost use Rattle.std.specs.Prelude.{List, All};
    ghost use Rattle.exr_base.specs.Shape.{IsSampled};
    ghost use Rattle.exr_base.specs.declared.channel.Channel.{Channel};

    ghost Value = { List Channel };

    ghost view = { λ c. c.all.items };

    ghost invariant = { λ c. All IsSampled c.all.items };
}

impl Channels {
    /// The channels.
    pub fn as_slice(&self) -> &[Channel]
        ensures value { result.now ≡ self.now }
        ensures sampled { All IsSampled self.now }
    {
        self.all.as_slice()
    }
}

/// The pixel type with a number.
fn kind(number: u32) -> Option<Kind>
    ensures { result ≡ kind_numbered number }
{
    match number {
        0 => Some(Kind::Uint),
        1 => Some(Kind::Half),
        2 => Some(Kind::Float),
        _ => None,
    }
}

/// The channel with a name and the 16 bytes that follow the name.
#[tactic(auto, unfolding(crate::specs::Channels::channel_named))]
fn channel_named(name: Name, fields: &[u8]) -> Option<Channel>
    ensures exact { result ≡ channel_named name fields.now }
    ensures long { OnSome result (16 ≤ length fields.now) }
    ensures sampled { IfSome result IsSampled }
{
    if fields.len() < 16 {
        return None;
    }
    let xs = word(fields, 8);
    let ys = word(fields, 12);
    if !is_sampling(xs) || !is_sampling(ys) {
        return None;
    }
    let kind = kind(word(fields, 0))?;
    let linear = byte(fields, 4);
    Some(Channel {
        name,
        kind,
        linear,
        xs,
        ys,
    })
}

/// Whether a word is an int of at least 1.
fn is_sampling(word: u32) -> bool
    ensures { result ≡ is_sampling word }
{
    word >= 1 && word < 1 << 31
}

/// The first channel of a list, and the rest of the list.
#[tactic(auto, unfolding(crate::specs::Channels::channel_at))]
fn channel(bytes: &[u8]) -> Option<(Channel, &[u8])>
    ensures exact { option_map (λ next. (next.0, next.1.now)) result ≡ channel_at bytes.now }
    ensures sampled { IfSome result (λ next. IsSampled next.0) }
{
    let ends = zero_in(bytes)?;
    let name = Name::new(&bytes[..ends])?;
    let channel = channel_named(name, &bytes[ends + 1..])?;
    Some((channel, &bytes[ends + 17..]))
}

/// The name of the last channel, empty where there is none.
fn last_name(channels: &[Channel]) -> &[u8]
    ensures { result.now ≡ last_name channels.now }
{
    if channels.is_empty() {
        return &[];
    }
    channels[channels.len() - 1].name.bytes()
}

/// The next item of a channel list.
enum Next<'a> {
    /// A channel, and the rest of the list.
    Channel(Channel, &'a [u8]),
    /// The zero byte that ends the list, as its last byte.
    Closed,
    /// Neither.
    Broken,
}

/// The next channel, if its name is greater than the one before.
#[tactic(auto, unfolding(crate::specs::Channels::next_channel))]
fn next_channel<'a>(above: &[u8], bytes: &'a [u8]) -> Next<'a>
    ensures exact { next_of result ≡ next_channel above.now bytes.now }
    ensures sampled { NextIsSampled result }
{
    match bytes {
        [] => Next::Broken,
        [0, rest @ ..] => {
            if rest.is_empty() {
                Next::Closed
            } else {
                Next::Broken
            }
        }
        [_, ..] => next_above(above, channel(bytes)),
    }
}

/// A channel that was read, if its name is greater than the one before.
fn next_above<'a>(above: &[u8], next: Option<(Channel, &'a [u8])>) -> Next<'a>
    requires { IfSome next (λ x. IsSampled x.0) }
    ensures exact { next_of result
        ≡ above_only above.now (option_map (λ x. (x.0, x.1.now)) next.entry) }
    ensures sampled { NextIsSampled result }
{
    match next {
        Some((channel, behind)) => {
            if above.cmp(channel.name.bytes()) == Ordering::Less {
                Next::Channel(channel, behind)
            } else {
                Next::Broken
            }
        }
        None => Next::Broken,
    }
}

/// Parses a `chlist` value; `None` if it is malformed.
pub(crate) fn channels_of(alloc: Global, value: &[u8]) -> Result<Option<Channels>, NoMemory>
    ensures { IfOk result (λ list. list ≡ channels_of value.now) }
{
    let mut all = Vec::new(alloc);
    let mut rest = value;
    for _i in 0..value.len() {
        match next_channel(last_name(all.as_slice()), rest) {
            Next::Channel(channel, behind) => {
                all.push(channel)?;
                rest = behind;
            }
            Next::Closed => return Ok(Some(Channels { all })),
            Next::Broken => return Ok(None),
        }
    }
    Ok(None)
}

/// The place of the first zero.
fn zero_in(bytes: &[u8]) -> Option<usize>
    ensures exact { result ≡ position (λ b. b == 0) bytes.now }
    ensures within { IfSome result (λ i. i < length bytes.now) }
{
    bytes.iter().position(|b| *b == 0)
}
