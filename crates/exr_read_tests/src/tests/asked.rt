//! What is asked of a part, written as constants.

ghost use Rattle.std.specs.Prelude.{◌≤◌, IfOk, IfSome, length};
ghost use Rattle.exr_asked.specs.Demand.{demand_of, IsModest};

use exr_base::{Box2i, Kind, Name};
use exr_request::{Arrangement, Asked, Wanted};
use std::alloc::Global;
use std::test::Fail;

/// The name of a channel, and its pixel type where one is asked for.
pub type Named = (&'static [u8], Option<Kind>);

/// What is asked for, as `Asked` says it.
#[derive(Clone, Copy)]
pub struct Request {
    pub part: u32,
    /// The first column and line, and the last ones.
    pub window: Option<[i32; 4]>,
    pub layout: Arrangement,
    pub channels: Option<&'static [Named]>,
    pub pad: u16,
    /// Whether a choice was given that a deep part does not take.
    pub arranged: bool,
    pub fill: u32,
}

/// All samples of the first part, plane by plane.
pub const ALL: Request = Request {
    part: 0,
    window: None,
    layout: Arrangement::Planar,
    channels: None,
    pad: 0,
    arranged: false,
    fill: 0,
};

fn wanted_of(alloc: Global, table: &[Named]) -> Result<Vec<Wanted>, Fail>
    ensures { IfOk result (λ wanted. length wanted.items ≤ 1024) }
{
    let mut wanted = Vec::new(alloc);
    for (name, kind) in table {
        wanted.push(Wanted {
            name: Name::new(name).ok_or("a name")?,
            kind: *kind,
        })?;
    }
    if wanted.len() > 1024 {
        return Err("too many channels".into());
    }
    Ok(wanted)
}

fn channels_of(alloc: Global, table: Option<&[Named]>) -> Result<Option<Vec<Wanted>>, Fail>
    ensures { IfOk result (λ channels. IfSome channels (λ wanted. length wanted.items ≤ 1024)) }
{
    match table {
        Some(table) => Ok(Some(wanted_of(alloc, table)?)),
        None => Ok(None),
    }
}

/// What a request asks for.
pub fn asked_of(alloc: Global, request: &Request) -> Result<Asked, Fail>
    ensures { IfOk result (λ asked. IsModest (demand_of asked)) }
{
    let channels = channels_of(alloc, request.channels)?;
    let window = match request.window {
        Some(sides) => {
            let [x0, y0, x1, y1] = sides;
            Some(Box2i { x0, y0, x1, y1 })
        }
        None => None,
    };
    Ok(Asked {
        part: request.part,
        window,
        layout: request.layout,
        channels,
        pad: u32::from(request.pad),
        fill: request.fill,
        arranged: request.arranged,
    })
}
