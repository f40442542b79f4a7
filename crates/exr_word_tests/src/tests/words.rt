//! Command lines, with what they ask for or the word at which they are refused.

use super::expect;
use exr_base::Refusal;
use exr_words::{Choices, Order, Wanted, WordFault, read_words};
use std::alloc::{AllocError, Global};
use std::fmt::Debug;
use std::test::Fail;

/// A key and its value, where it was given.
fn told<T: Debug>(alloc: Global, key: &str, value: &Option<T>) -> Result<String, AllocError> {
    match value {
        None => Ok(String::new(alloc)),
        Some(value) => format!(in alloc; " {key} {value:?}"),
    }
}

/// A name, and a kind where it was given.
fn named(alloc: Global, wanted: &Wanted) -> Result<String, AllocError> {
    let mut text = String::from_str(alloc, " ")?;
    for byte in wanted.name.bytes() {
        text.push(char::from(*byte))?;
    }
    text.push_str(told(alloc, "is", &wanted.kind)?.as_str())?;
    Ok(text)
}

/// The channels, where they were given.
fn all_named(alloc: Global, channels: &Option<Vec<Wanted>>) -> Result<String, AllocError> {
    let mut text = String::new(alloc);
    if let Some(channels) = channels {
        text.push_str(" channels")?;
        for wanted in channels {
            text.push_str(named(alloc, wanted)?.as_str())?;
        }
    }
    Ok(text)
}

/// What samples are chosen by, as a text.
fn chosen(alloc: Global, choices: &Choices) -> Result<String, AllocError> {
    let mut text = told(alloc, "part", &choices.part)?;
    text.push_str(told(alloc, "window", &choices.window)?.as_str())?;
    text.push_str(told(alloc, "layout", &choices.layout)?.as_str())?;
    text.push_str(all_named(alloc, &choices.channels)?.as_str())?;
    text.push_str(told(alloc, "pad", &choices.pad)?.as_str())?;
    text.push_str(told(alloc, "fill", &choices.fill)?.as_str())?;
    text.push_str(told(alloc, "byte", &choices.byte)?.as_str())?;
    text.push_str(told(alloc, "workers", &choices.workers)?.as_str())?;
    Ok(text)
}

/// What an order asks for, as a text.
fn shown(alloc: Global, order: &Order) -> Result<String, AllocError> {
    match order {
        Order::Header { inputs } => format!(in alloc; "header {}", inputs.first()),
        Order::Check { inputs, workers } => {
            let told = told(alloc, "workers", workers)?;
            format!(in alloc; "check {}{told}", inputs.first())
        }
        Order::Extract {
            inputs,
            output,
            choices,
        } => {
            let chosen = chosen(alloc, choices)?;
            format!(in alloc; "{} to {}{chosen}", inputs.first(), output.as_str())
        }
    }
}

/// What some words ask for, as a text, or the position at which they are refused.
fn answer_to(alloc: Global, words: &[&str]) -> Result<String, Fail> {
    let mut texts = Vec::new(alloc);
    for word in words {
        texts.push(String::from_str(alloc, word)?)?;
    }
    if texts.len() >= 1 << 32 {
        return Err("few words".into());
    }
    Ok(match read_words(alloc, &texts) {
        Ok(order) => shown(alloc, &order)?,
        Err(Refusal::Fault(WordFault { position })) => format!(in alloc; "{position}")?,
        Err(Refusal::NoMemory) => return Err("memory".into()),
    })
}

/// Command lines, with their answers.
const COMMANDS: &[(&[&str], &str)] = &[
    (&["header", "in=a"], "header a"),
    (&["header", "in=in=a"], "header in=a"),
    (&["header", "in= "], "header  "),
    (&["extract", "in=a", "out=b"], "a to b"),
    (&["extract", "out=b", "in=a"], "a to b"),
    (&["extract", "out=in=", "in=out="], "out= to in="),
    (&[], "0"),
    (&[""], "0"),
    (&["Header", "in=a"], "0"),
    (&["header ", "in=a"], "0"),
    (&["in=a", "out=b"], "0"),
    (&["--help"], "0"),
    (&["header"], "1"),
    (&["header", "a"], "1"),
    (&["header", "in="], "1"),
    (&["header", "in"], "1"),
    (&["header", "=a"], "1"),
    (&["header", "In=a"], "1"),
    (&["header", "out=b"], "1"),
    (&["header", "in=a", "in=a"], "2"),
    (&["header", "in=a", "out=b"], "2"),
    (&["header", "in=a", "part=0"], "2"),
    (&["check", "in=a"], "check a"),
    (&["check", "workers=16", "in=a"], "check a workers 16"),
    (&["check"], "1"),
    (&["check", "workers=2"], "2"),
    (&["check", "in=a", "workers=0"], "2"),
    (&["check", "in=a", "workers=17"], "2"),
    (&["check", "in=a", "workers=2", "workers=2"], "3"),
    (&["check", "in=a", "out=b"], "2"),
    (&["check", "in=a", "part=0"], "2"),
    (&["check", "in=a", "in=b"], "2"),
    (&["extract"], "1"),
    (&["extract", "in=a"], "2"),
    (&["extract", "out=b"], "2"),
    (&["extract", "in=a", "out="], "2"),
    (&["extract", "in=a", "in=a", "out=b"], "2"),
    (&["extract", "in=a", "out=b", "out=b"], "3"),
    (&["extract", "part=1", "in=a", "part=1", "out=b"], "3"),
    (&["extract", "in=a", "pad=1", "pad=2", "byte=x"], "3"),
    (&["extract", "pad=65536", "in=", "in=a"], "1"),
    (&["extract", "pad=1", "window=0,0,0,0"], "3"),
    (
        &[
            "extract",
            "workers=2",
            "byte=9",
            "fill=8",
            "out=b",
            "pad=7",
            "part=6",
            "in=a",
        ],
        "a to b part 6 pad 7 fill 8 byte 9 workers 2",
    ),
    (
        &[
            "extract",
            "channels=Z,Y:half",
            "in=a",
            "layout=lines",
            "out=b",
            "window=-1,0,2,3",
        ],
        "a to b window Box2i { x0: -1, y0: 0, x1: 2, y1: 3 } layout Lines channels Z Y is Half",
    ),
];

#[test]
fn each_word_at_its_place(rt: HostRuntime) -> Result<(), Fail> {
    for (case, (words, answer)) in COMMANDS.iter().enumerate() {
        let found = answer_to(rt.alloc(), words)?;
        expect(&rt, case, found.as_str() == *answer);
    }
    Ok(())
}

/// Words of numbers behind `extract in=a out=b`, with the answers.
const NUMBERS: &[(&str, &str)] = &[
    ("part=0", "a to b part 0"),
    ("part=007", "a to b part 7"),
    ("part=4294967295", "a to b part 4294967295"),
    ("part=00000000004294967295", "a to b part 4294967295"),
    ("part=000000000004294967295", "3"),
    ("part=4294967296", "3"),
    ("part=18446744073709551616", "3"),
    ("part=99999999999999999999", "3"),
    ("part=-0", "3"),
    ("part=+1", "3"),
    ("part= 1", "3"),
    ("part=1/", "3"),
    ("part=:", "3"),
    ("part=", "3"),
    ("pad=65535", "a to b pad 65535"),
    ("pad=65536", "3"),
    ("fill=4294967295", "a to b fill 4294967295"),
    ("fill=4294967296", "3"),
    ("byte=255", "a to b byte 255"),
    ("byte=256", "3"),
    ("workers=0", "3"),
    ("workers=1", "a to b workers 1"),
    ("workers=16", "a to b workers 16"),
    ("workers=17", "3"),
    ("callers=1", "3"),
];

/// Words of windows and layouts.
const WINDOWS_AND_LAYOUTS: &[(&str, &str)] = &[
    (
        "window=0,0,1,0",
        "a to b window Box2i { x0: 0, y0: 0, x1: 1, y1: 0 }",
    ),
    (
        "window=9,8,-7,-6",
        "a to b window Box2i { x0: 9, y0: 8, x1: -7, y1: -6 }",
    ),
    (
        "window=-0,-00,1073741824,-1073741824",
        "a to b window Box2i { x0: 0, y0: 0, x1: 1073741824, y1: -1073741824 }",
    ),
    ("window=0,0,1073741825,0", "3"),
    ("window=0,0,0,-1073741825", "3"),
    ("window=0,0,0", "3"),
    ("window=0,0,0,0,0", "3"),
    ("window=0,0,0,0,", "3"),
    ("window=,0,0,0", "3"),
    ("window=0,-,0,0", "3"),
    ("window=0,--1,0,0", "3"),
    ("window=0, 1,0,0", "3"),
    ("window=0,0,0,000000000000000000001", "3"),
    ("window=0", "3"),
    ("layout=planar", "a to b layout Planar"),
    ("layout=lines", "a to b layout Lines"),
    ("layout=pixels", "a to b layout Pixels"),
    ("layout=Planar", "3"),
    ("layout=line", "3"),
];

/// Words of channels.
const CHANNELS: &[(&str, &str)] = &[
    ("channels=Y", "a to b channels Y"),
    ("channels=Y,Y", "a to b channels Y Y"),
    ("channels=Y:float", "a to b channels Y is Float"),
    (
        "channels=R:uint,G:half,B",
        "a to b channels R is Uint G is Half B",
    ),
    ("channels= ,=", "a to b channels   ="),
    ("channels=Y:", "3"),
    ("channels=Y:Float", "3"),
    ("channels=Y:half:half", "3"),
    ("channels=Y:half ,Z", "3"),
    ("channels=:half", "3"),
    ("channels=Y,,Z", "3"),
    ("channels=,Y", "3"),
    ("channels=Y,", "3"),
    ("channels=,", "3"),
    ("channels=Y\0", "3"),
];

/// A word that names so many channels, each by so many letters.
fn channels_word(alloc: Global, channels: u32, letters: u32) -> Result<String, AllocError> {
    let mut word = String::from_str(alloc, "channels=")?;
    for channel in 0..channels {
        if channel > 0 {
            word.push(',')?;
        }
        for _letter in 0..letters {
            word.push('n')?;
        }
    }
    Ok(word)
}

/// How many channels are named by how many letters each, and whether they may be.
const LENGTHS: &[(u32, u32, bool)] = &[
    (1, 255, true),
    (1, 256, false),
    (1024, 1, true),
    (1025, 1, false),
    (2, 255, true),
];

#[test]
fn choices(rt: HostRuntime) -> Result<(), Fail> {
    for table in [NUMBERS, WINDOWS_AND_LAYOUTS, CHANNELS] {
        for (case, (word, answer)) in table.iter().enumerate() {
            let found = answer_to(rt.alloc(), &["extract", "in=a", "out=b", word])?;
            expect(&rt, case, found.as_str() == *answer);
        }
    }
    Ok(())
}

#[test]
fn lengths_of_channels(rt: HostRuntime) -> Result<(), Fail> {
    for (case, (channels, letters, is_list)) in LENGTHS.iter().enumerate() {
        let word = channels_word(rt.alloc(), *channels, *letters)?;
        let found = answer_to(rt.alloc(), &["extract", "in=a", "out=b", word.as_str()])?;
        expect(&rt, case, (found.as_str() != "3") == *is_list);
    }
    Ok(())
}
