//! The channels that are asked for, as `NAME,NAME:KIND` (own).

ghost use Rattle.std.specs.Prelude.{◌≡◌, IfOk, option_map};
ghost use Rattle.exr_words.specs.Channels.{kind_of, wanted_of, channels_of};

use exr_asked::Wanted;
use exr_base::{Kind, Name, NoMemory};
use std::alloc::Global;

/// The most channels that can be named.
const MOST_CHANNELS: usize = 1024;

/// Parses a list of channels; `None` if it is malformed.
pub(crate) fn channels(alloc: Global, text: &str) -> Result<Option<Vec<Wanted>>, NoMemory>
    ensures { IfOk result (λ found. option_map (λ wanted. wanted.items) found ≡ channels_of text.now) }
{
    let mut channels = Vec::new(alloc);
    for item in text.split(',') {
        if channels.len() == MOST_CHANNELS {
            return Ok(None);
        }
        let Some(channel) = wanted(item) else {
            return Ok(None);
        };
        channels.push(channel)?;
    }
    Ok(Some(channels))
}

/// Parses a channel: its name, or its name and kind.
fn wanted(item: &str) -> Option<Wanted>
    ensures { result ≡ wanted_of item.now }
{
    match item.split_once(':') {
        None => Some(Wanted {
            name: Name::new(item.as_bytes())?,
            kind: None,
        }),
        Some((name, kind)) => {
            let kind = kind_of(kind)?;
            Some(Wanted {
                name: Name::new(name.as_bytes())?,
                kind: Some(kind),
            })
        }
    }
}

/// The pixel type with a name.
fn kind_of(name: &str) -> Option<Kind>
    ensures { result ≡ kind_of name.now }
{
    if name == "uint" {
        return Some(Kind::Uint);
    }
    if name == "half" {
        return Some(Kind::Half);
    }
    (name == "float").then_some(Kind::Float)
}
