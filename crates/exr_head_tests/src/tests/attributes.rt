//! Attributes: their names, the headers that are read and written, and the map of a header.

use exr_attributes::{
    Attribute, AttributeMap, AttributeValue, Bound, HeaderFault, PackedName, read_attributes,
    write_attributes,
};
use exr_base::{Cursor, Refusal};
use exr_fixtures::put_attribute;
use std::alloc::Global;
use std::test::Fail;

/// How many attributes a header has and how many bytes follow it, or its first fault. What is read is written back.
fn outcome_of(alloc: Global, bytes: &[u8]) -> Result<Result<(usize, usize), HeaderFault>, Fail> {
    let mut from = Cursor::new(bytes);
    match read_attributes(alloc, &mut from) {
        Ok(map) => {
            let mut again = b"before".to_vec(alloc)?;
            write_attributes(alloc, &map, &mut again)?;
            if again.get(6..) != bytes.get(..from.at()) {
                return Err(Fail::from("other bytes"));
            }
            Ok(Ok((map.len(), from.left())))
        }
        Err(Refusal::Fault(fault)) => Ok(Err(fault)),
        Err(Refusal::NoMemory) => Err(Fail::from("no memory")),
    }
}

/// An attribute `a` of type `t` with the bytes 7 and 8, one `b` of type `t` without bytes, and the closing zero.
const TWO: &[u8] = b"a\0t\0\x02\0\0\0\x07\x08b\0t\0\0\0\0\0\0";

/// The bytes of a header, and what is read of them.
type Case = (&'static [u8], Result<(usize, usize), HeaderFault>);

/// Two attributes whose names make one number when they are compared, the closing zero, and the first name again.
const OF_ONE_NUMBER: &[u8] =
    b"aiaaogaaaagadk\0t\0\0\0\0\0paoeaacedgalaa\0t\0\0\0\0\0\0iaaogaaaagadk\0t\0\0\0\0\0";

const SAME_NAMES_OF_ONE_NUMBER: &[u8] =
    b"aiaaogaaaagadk\0t\0\0\0\0\0paoeaacedgalaa\0t\0\0\0\0\0aiaaogaaaagadk\0t\0\0\0\0\0";

const CASES: &[Case] = &[
    (b"\0", Ok((0, 0))),
    (TWO, Ok((2, 0))),
    (b"a\0t\0\0\0\0\0\0a\0t\0", Ok((1, 4))),
    (b"A\0t\0\0\0\0\0a\0t\0\0\0\0\0\0", Ok((2, 0))),
    (OF_ONE_NUMBER, Ok((2, 20))),
    (b"", Err(HeaderFault::Truncated { at: 0 })),
    (b"a\0\0", Err(HeaderFault::BadName { at: 2 })),
    (b"a\0t\0\0\0\0\x80", Err(HeaderFault::BadSize { at: 4 })),
    // a size that is only claimed
    (
        b"a\0t\0\xff\xff\xff\x7f...",
        Err(HeaderFault::Truncated { at: 11 }),
    ),
    (
        b"a\0t\0\0\0\0\0a\0t\0\0\0\0\0",
        Err(HeaderFault::Twice { at: 8 }),
    ),
    // the second one of a name is read whole before it is refused
    (
        b"a\0t\0\0\0\0\0a\0t\0\0\0\0",
        Err(HeaderFault::Truncated { at: 15 }),
    ),
    // and is refused before what follows it
    (
        b"a\0t\0\0\0\0\0a\0t\0\0\0\0\0b\0t\0",
        Err(HeaderFault::Twice { at: 8 }),
    ),
    (SAME_NAMES_OF_ONE_NUMBER, Err(HeaderFault::Twice { at: 42 })),
];

#[test]
fn headers(rt: HostRuntime) -> Result<(), Fail> {
    for (bytes, outcome) in CASES {
        assert!(rt; outcome_of(rt.alloc(), bytes)? == *outcome);
    }
    for len in 0..TWO.len() {
        let front = TWO.get(..len).ok_or("a front")?;
        let ends = HeaderFault::Truncated { at: len as u64 };
        assert!(rt; outcome_of(rt.alloc(), front)? == Err(ends));
    }
    Ok(())
}

/// Bytes `a`, of which one may be zero, and the fault of the header that they begin.
const LETTERS: &[(usize, Option<usize>, HeaderFault)] = &[
    (256, None, HeaderFault::BadName { at: 0 }),
    (255, None, HeaderFault::Truncated { at: 255 }),
    // a name of 255 bytes, and a type without an end
    (270, Some(255), HeaderFault::Truncated { at: 270 }),
    (512, Some(255), HeaderFault::BadName { at: 256 }),
];

#[test]
fn long_names(rt: HostRuntime) -> Result<(), Fail> {
    for (len, zero, fault) in LETTERS {
        let mut bytes = vec![in rt.alloc(); b'a'; *len]?;
        for byte in bytes.iter_mut().skip(zero.unwrap_or(*len)).take(1) {
            *byte = 0;
        }
        assert!(rt; outcome_of(rt.alloc(), &bytes)? == Err(*fault));
    }
    Ok(())
}

/// The bytes of a value that fills a header of 2^24 bytes, with its name, its type and its size.
const MOST: usize = (1 << 24) - 9;

#[test]
fn a_header_of_16_mib(rt: HostRuntime) -> Result<(), Fail> {
    for (size, outcome) in [
        (MOST, Ok((1, 0))),
        (MOST + 1, Err(HeaderFault::Limit(Bound::HeadBytes))),
    ] {
        let mut bytes = Vec::new(rt.alloc());
        let value = vec![in rt.alloc(); 0u8; size]?;
        put_attribute(&mut bytes, b"a", b"t", &value)?;
        bytes.push(0)?;
        assert!(rt; outcome_of(rt.alloc(), &bytes)? == outcome);
    }
    Ok(())
}

/// A change of a map: a value of one letter for a name of one letter, or a name that is removed if it is there.
#[derive(Clone, Copy)]
enum Step {
    Set(u8, u8),
    Remove(u8, bool),
}

/// Changes, and the names and values of the map then.
const STEPS: &[(Step, &[u8])] = &[
    (Step::Set(b'x', b'1'), b"x1"),
    (Step::Set(b'y', b'2'), b"x1y2"),
    (Step::Set(b'z', b'3'), b"x1y2z3"),
    (Step::Set(b'x', b'4'), b"x4y2z3"),
    (Step::Remove(b'y', true), b"x4z3"),
    (Step::Remove(b'y', false), b"x4z3"),
    (Step::Set(b'y', b'5'), b"x4z3y5"),
];

fn name_of(alloc: Global, letter: u8) -> Result<PackedName, Fail> {
    Ok(PackedName::new(alloc, &[letter])?.ok_or("a name")?)
}

/// The map after a change.
fn take_step(alloc: Global, map: &mut AttributeMap, step: Step) -> Result<(), Fail> {
    match step {
        Step::Set(letter, value) => {
            let attribute = Attribute {
                kind: name_of(alloc, b't')?,
                value: AttributeValue::new(alloc, &[value])?,
            };
            map.set(name_of(alloc, letter)?, attribute)?;
        }
        Step::Remove(letter, is_there) => {
            if map.remove(&name_of(alloc, letter)?) != is_there {
                return Err(Fail::from("another answer"));
            }
        }
    }
    Ok(())
}

/// The names and values of a map, each found in the three ways.
fn listed(alloc: Global, map: &AttributeMap) -> Result<Vec<u8>, Fail> {
    let mut list = Vec::new(alloc);
    for (place, entry) in map.entries().iter().enumerate() {
        let (name, there) = map.at(place).ok_or("an attribute")?;
        let found = map.get(name).ok_or("its name")?;
        let again = map.find(entry.name.bytes()).ok_or("its bytes")?;
        list.extend_from_slice(name.bytes())?;
        list.extend_from_slice(there.value.bytes())?;
        if found.value.bytes() != there.value.bytes()
            || again.value.bytes() != there.value.bytes()
        {
            return Err(Fail::from("another value"));
        }
    }
    Ok(list)
}

#[test]
fn a_map_is_its_list(rt: HostRuntime) -> Result<(), Fail> {
    let mut map = AttributeMap::new(rt.alloc());
    for (step, list) in STEPS {
        let before = map.copy(rt.alloc())?;
        let kept = listed(rt.alloc(), &before)?;
        take_step(rt.alloc(), &mut map, *step)?;
        assert!(rt; listed(rt.alloc(), &map)?.as_slice() == *list);
        assert!(rt; listed(rt.alloc(), &before)? == kept);
        assert!(rt; map.at(map.len()).is_none() && map.find(b"t").is_none());
    }
    Ok(())
}
