//! Tables of files, words and failing calls, and what comes of them.

mod checked;
mod deep;
mod edits;
mod files;
mod headers;
mod methods;
mod refused;
mod runs;
mod stops;
mod written;
