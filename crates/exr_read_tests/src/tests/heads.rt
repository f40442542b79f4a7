//! Heads of files of one part, read from bytes that are spelled for them.

use exr_fixtures::{Picture, single_head};
use exr_header::{FileHead, read_head};
use std::alloc::Global;
use std::test::Fail;

/// The head of a file of one picture.
pub fn head_of(alloc: Global, picture: &Picture) -> Result<FileHead, Fail> {
    let (head, _) = read_head(alloc, &single_head(alloc, picture, b"")?)?;
    Ok(head)
}
