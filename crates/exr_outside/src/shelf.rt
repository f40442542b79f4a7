//! Where files in memory keep the sinks that were given back: a chain of boxes, the newest first. A sink brings its
//! box along, so that giving it back takes no memory.

ghost use Rattle.std.specs.Prelude.{◌≡◌, ◌∷◌, option_map, string_bytes};
ghost use Rattle.std.specs.Option.{option_copied};
ghost use Rattle.exr_outside.specs.Fakes.{file_of};
ghost use Rattle.exr_outside.specs.Shelf.{shelved, shelved_in};

/// A name, the bytes that the sink of that name held, and what was kept before it.
#[derive(Drop)]
pub struct Shelf {
    pub(crate) name: String,
    pub(crate) bytes: Vec<u8>,
    pub(crate) before: Option<Box<Shelf>>,
}

/// Puts a name and bytes into a box, in front of what was kept before.
pub fn shelve(
    mut shelf: Box<Shelf>,
    name: String,
    bytes: Vec<u8>,
    before: Option<Box<Shelf>>,
) -> Box<Shelf>
    ensures { shelved result.value ≡ (string_bytes name, bytes.items) ∷ shelved_in before }
{
    *shelf = Shelf {
        name,
        bytes,
        before,
    };
    shelf
}

/// What the newest box of this name keeps.
pub fn find_kept<'a>(newest: &'a Option<Box<Shelf>>, name: &str) -> Option<&'a [u8]>
    ensures { option_map (λ bytes. bytes.now) result ≡ file_of (shelved_in newest.now) name.now }
{
    let mut at = newest;
    while let Some(shelf) = at {
        if shelf.name.as_str() == name {
            return Some(&shelf.bytes);
        }
        at = &shelf.before;
    }
    None
}
