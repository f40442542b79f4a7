//! The commands and the keys by their names, and which command takes which key, and how often (own).

ghost use Rattle.std.specs.Prelude.{◌≡◌};
ghost use Rattle.exr_words.specs.Names.{verb_of, key_of, choice_of, takes, repeats};

/// The commands.
#[derive(Clone, Copy)]
pub(crate) enum Verb {
    Header,
    Check,
    Extract,
}

/// The key of each other word, which precedes the `=`.
#[derive(Clone, Copy)]
pub(crate) enum Key {
    In,
    Out,
    Choice(Choice),
}

/// The keys that choose samples.
#[derive(Clone, Copy)]
pub(crate) enum Choice {
    Part,
    Window,
    Layout,
    Channels,
    Pad,
    Fill,
    Byte,
    Workers,
}

/// The command with a name.
pub(crate) fn verb_of(name: &str) -> Option<Verb>
    ensures { result ≡ verb_of name.now }
{
    if name == "header" {
        return Some(Verb::Header);
    }
    if name == "check" {
        return Some(Verb::Check);
    }
    (name == "extract").then_some(Verb::Extract)
}

/// The key with a name.
pub(crate) fn key_of(name: &str) -> Option<Key>
    ensures { result ≡ key_of name.now }
{
    if name == "in" {
        return Some(Key::In);
    }
    if name == "out" {
        return Some(Key::Out);
    }
    Some(Key::Choice(choice_of(name)?))
}

/// The key with a name that chooses samples.
fn choice_of(name: &str) -> Option<Choice>
    ensures { result ≡ choice_of name.now }
{
    if name == "part" {
        return Some(Choice::Part);
    }
    if name == "window" {
        return Some(Choice::Window);
    }
    if name == "layout" {
        return Some(Choice::Layout);
    }
    if name == "channels" {
        return Some(Choice::Channels);
    }
    if name == "pad" {
        return Some(Choice::Pad);
    }
    if name == "fill" {
        return Some(Choice::Fill);
    }
    if name == "byte" {
        return Some(Choice::Byte);
    }
    (name == "workers").then_some(Choice::Workers)
}

/// Whether a command takes a key.
pub(crate) fn takes(verb: Verb, key: Key) -> bool
    ensures { result ≡ takes verb key }
{
    match verb {
        Verb::Header => matches!(key, Key::In),
        Verb::Check => matches!(key, Key::In | Key::Choice(Choice::Workers)),
        Verb::Extract => true,
    }
}

/// Whether a command may have a key more than once.
pub(crate) fn repeats(verb: Verb, key: Key) -> bool
    ensures { result ≡ repeats verb key }
{
    match (verb, key) {
        (Verb::Header | Verb::Check | Verb::Extract, _) => false,
    }
}
