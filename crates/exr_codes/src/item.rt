//! One item of a spelled table: a length, or a run of entries without a code.

ghost use Rattle.std.specs.Prelude.{◌≡◌, ◌≤◌, IfSome, MatchOption, None, Some};
ghost use Rattle.exr_codes.specs.Items.{lengths_of_item, IsItem};
ghost use Rattle.exr_codes.specs.Tables.{item_at};

use crate::reader::Reader;

/// An item: one length of at most 58 bits, or a number of entries without a code.
#[derive(Clone, Copy)]
pub(crate) enum Item {
    Length(u8),
    Zeros(u16),
}

/// The first item of the bits, or None where they do not hold a whole one.
#[tactic(auto, unfolding(crate::specs::Tables::item_at))]
pub(crate) fn take_item(reader: &mut Reader<'_>) -> Option<Item>
    ensures value { MatchOption result (item_at reader.old ≡ None) (λ item. item_at reader.old ≡ Some (lengths_of_item item, reader.new)) }
    ensures fits { IfSome result IsItem }
{
    let item = reader.take(6)?;
    if item <= 58 {
        return Some(Item::Length(item as u8));
    }
    if item <= 62 {
        return Some(Item::Zeros((item - 57) as u16));
    }
    let count = reader.take(8)?;
    Some(Item::Zeros(count as u16 + 6))
}
