//! Tables of cases, a file for each subject, and the heads that they share.

mod attributes;
mod base;
mod faults;
mod given;
mod header;
mod heads;
mod judge;
mod pictures;
mod required;
