//! Tables of cases, a file for each crate, and the planes that are written for them.

mod chunks;
mod frames;
mod layouts;
mod planes;
