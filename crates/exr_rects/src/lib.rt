//! Rectangles of bytes in one buffer, which threads write side by side.
//!
//! A [`Sheet`] is a buffer of which a part is owned. It is cut into sheets that own disjoint parts, whatever their shape,
//! and these are joined again. A [`RectMut`] is a rectangle of a sheet, whose rows are written. [`with_sheet`] makes a
//! sheet of a slice for as long as a function works on it.
#![tactic(auto)]

mod lend;
mod rect;
mod sheet;

pub use lend::with_sheet;
pub use rect::RectMut;
pub use sheet::Sheet;
