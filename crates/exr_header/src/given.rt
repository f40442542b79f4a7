//! The head of given parts, validated as a reader validates the head of a file.

ghost use Rattle.std.specs.Prelude.{◌≡◌, ◌≤◌, ◌<◌, ◌+◌, ◌^◌, [], false, All, length, sum_by, IfOk};
ghost use Rattle.exr_base.specs.Refusal.{Gives};
ghost use Rattle.exr_judge.specs.Kind.{is_deep, is_kind};
ghost use Rattle.std.specs.List.{list_any};
ghost use Rattle.exr_judge.specs.Picture.{chunk_count_of, IsPicture};
ghost use Rattle.exr_header.specs.Head.{flags_given, kind_given, part_given, parts_given, head_given};
ghost use Rattle.exr_attributes.specs.Spelling.{AreAttributes};
ghost use Rattle.exr_header.specs.Spells.{AreHeaders};

use crate::head::FileHead;
use crate::writing::spelling_of;
use exr_attributes::{AttributeMap, Bound, HEAD_LIMIT, HeaderFault};
use exr_base::Refusal;
use exr_judge::{Flags, Header, PartKind, chunk_count, judged, typed_kind};
use std::alloc::Global;

/// Whether two kinds are one.
fn is_kind(kind: PartKind, other: PartKind) -> bool
    ensures { result ≡ is_kind kind other }
{
    match kind {
        PartKind::Scan => matches!(other, PartKind::Scan),
        PartKind::Tiled => matches!(other, PartKind::Tiled),
        PartKind::DeepScan => matches!(other, PartKind::DeepScan),
        PartKind::DeepTiled => matches!(other, PartKind::DeepTiled),
    }
}

/// The flags that a writer sets for some parts.
fn flags_given(multi: bool, given: &[(PartKind, AttributeMap)]) -> Flags
    ensures { result ≡ flags_given multi given.now }
{
    Flags {
        multi,
        deep: has_deep_data(given),
    }
}

/// Whether one of the given parts is deep.
fn has_deep_data(given: &[(PartKind, AttributeMap)]) -> bool
    ensures { result ≡ list_any (λ g. is_deep g.0) given.now }
{
    given.iter().any(|g| g.0.is_deep())
}

/// The kind of a given part; its attribute `type` may not contradict it.
#[tactic(auto, unfolding(crate::specs::Head::kind_given))]
fn kind_given(
    flags: Flags,
    part: u32,
    given: PartKind,
    map: &AttributeMap,
) -> Result<PartKind, Refusal<HeaderFault>>
    ensures { Gives (λ kind. kind) result (kind_given flags part (given, map.now)) }
{
    if !(flags.multi || flags.deep) {
        return Ok(given);
    }
    let kind = typed_kind(part, map)?;
    if !is_kind(kind, given) {
        return Err(Refusal::Fault(HeaderFault::BadPartType { part }));
    }
    Ok(kind)
}

/// The header of a given part that follows the `earlier` ones, which have `chunks` chunks.
#[tactic(auto, unfolding(crate::specs::Head::part_given))]
fn part_given(
    alloc: Global,
    flags: Flags,
    earlier: &[Header],
    chunks: u64,
    given: PartKind,
    map: AttributeMap,
) -> Result<Header, Refusal<HeaderFault>>
    requires parts { length earlier.now < 2 ^ 32 }
    requires counted { chunks ≡ sum_by chunk_count_of earlier.now }
    requires few { chunks ≤ 2 ^ 20 }
    ensures exact { Gives (λ header. header) result (part_given flags earlier.now (given, map)) }
    ensures picture { IfOk result IsPicture }
    ensures few { IfOk result (λ header. chunks + chunk_count_of header ≤ 2 ^ 20) }
    ensures attributes { IfOk result (λ header. AreAttributes header.attributes) }
{
    let _entries = map.entries();
    let kind = kind_given(flags, earlier.len() as u32, given, &map)?;
    judged(alloc, flags, earlier, chunks, kind, map)
}

/// The headers of all given parts.
fn parts_given(
    alloc: Global,
    flags: Flags,
    mut given: Vec<(PartKind, AttributeMap)>,
) -> Result<Vec<Header>, Refusal<HeaderFault>>
    requires { length given.items ≤ 1024 }
    ensures exact { Gives (λ parts. parts.items) result (parts_given flags [] given.items) }
    ensures pictures { IfOk result (λ parts. All IsPicture parts.items) }
    ensures headers { IfOk result (λ parts. AreHeaders parts.items) }
{
    given.reverse();
    let mut parts = Vec::new(alloc);
    let mut chunks = 0u64;
    'each: loop {
        match given.pop() {
            None => return Ok(parts),
            Some((kind, map)) => {
                let part = part_given(alloc, flags, parts.as_slice(), chunks, kind, map)?;
                chunks += chunk_count(&part);
                parts.push(part)?;
            }
        }
    }
}

impl FileHead {
    /// The head of these parts, at least one, and exactly one in a file that is not multi-part.
    ///
    /// More than 1,024 parts are `Limit(Parts)`. Then each part is validated as a reader does it, with bits 11 and 12 as a
    /// writer sets them; where one of them is set, a `type` that names another kind than the given one is `BadPartType`. Last,
    /// a head of more than 2^24 bytes is `Limit(HeadBytes)` (the order of faults: own).
    #[tactic(auto, unfolding(crate::specs::Head::head_given))]
    pub fn new(
        alloc: Global,
        multi: bool,
        parts: Vec<(PartKind, AttributeMap)>,
    ) -> Result<FileHead, Refusal<HeaderFault>>
        requires some { 1 ≤ length parts.items }
        requires one { multi ≡ false → length parts.items ≡ 1 }
        ensures { Gives (λ head. head) result (head_given multi parts.items) }
    {
        if parts.len() > 1024 {
            return Err(Refusal::Fault(HeaderFault::Limit(Bound::Parts)));
        }
        let flags = flags_given(multi, parts.as_slice());
        let parts = parts_given(alloc, flags, parts)?;
        let bytes = spelling_of(alloc, multi, parts.as_slice())?;
        if bytes.len() > HEAD_LIMIT {
            return Err(Refusal::Fault(HeaderFault::Limit(Bound::HeadBytes)));
        }
        Ok(FileHead { multi, parts })
    }
}
