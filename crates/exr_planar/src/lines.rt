//! The rows of one line, moved between raw data and planar data.

ghost use Rattle.std.specs.Prelude.{◌≡◌, ◌<◌, ◌≤◌, ◌+◌, ◌%◌, ◌++◌, length, take, drop};
ghost use Rattle.exr_base.specs.Shape.{IsShape, height_of, raw_size_of, lines_bytes_of};
ghost use Rattle.exr_planar.specs.Planar.{row_of, planar_row_of};
ghost use Rattle.exr_planar.specs.Moving.{AreMoved};

use crate::rows::rows_at;
use crate::sink::RowSink;
use crate::source::RowSource;
use exr_base::Shape;

/// Copies a row of raw data to a place in planar data.
fn take_row_at<S: RowSink>(sink: &mut S, to: usize, raw: &[u8], from: usize, count: usize)
    requires there { from + count ≤ length raw.now }
    requires room { to + count ≤ length (S.planar sink.old) }
    requires even_place { to % 2 ≡ 0 }
    requires even_size { count % 2 ≡ 0 }
    ensures row { S.planar sink.new ≡ take to (S.planar sink.old) ++ (take count (drop from raw.now) ++ drop count (drop to (S.planar sink.old))) }
    ensures memory { S.memory sink.new ≡ S.memory sink.old }
{
    sink.take_row(to, &raw[from..from + count]);
}

/// Copies the rows of a line from raw data, where the line begins at `start`, to their planes. It answers where the
/// next line begins.
pub(crate) fn put_line_in_planes<S: RowSink>(
    shape: &Shape,
    line: usize,
    start: usize,
    raw: &[u8],
    sink: &mut S,
) -> usize
    requires shape { IsShape shape.now.channels.now shape.now.region }
    requires line { line < height_of shape.now.region }
    requires start { start ≡ lines_bytes_of shape.now.channels.now shape.now.region line }
    requires raw { length raw.now ≡ raw_size_of shape.now.channels.now shape.now.region }
    requires planar { length (S.planar sink.old) ≡ raw_size_of shape.now.channels.now shape.now.region }
    ensures next { result ≡ lines_bytes_of shape.now.channels.now shape.now.region (line + 1) }
    ensures moved { AreMoved (row_of shape.now.channels.now shape.now.region) (planar_row_of shape.now.channels.now shape.now.region)
        shape.now.channels.now shape.now.region line (length shape.now.channels.now) raw.now (S.planar sink.old) (S.planar sink.new) }
    ensures memory { S.memory sink.new ≡ S.memory sink.old }
{
    let mut at = start;
    let mut plane = 0;
    for channel in shape.channels {
        let rows = rows_at(channel, shape.region, line);
        take_row_at(sink, plane + rows.above, raw, at, rows.here);
        at += rows.here;
        plane += rows.all;
    }
    at
}

/// Copies a row of planar data to a place in raw data.
fn put_row_at<S: RowSource>(source: &S, from: usize, into: &mut [u8], to: usize, count: usize)
    requires there { from + count ≤ length (S.planar source.now) }
    requires room { to + count ≤ length into.old }
    requires even_place { from % 2 ≡ 0 }
    requires even_size { count % 2 ≡ 0 }
    ensures { into.new ≡ take to into.old ++ (take count (drop from (S.planar source.now)) ++ drop count (drop to into.old)) }
{
    source.put_row(from, &mut into[to..to + count]);
}

/// Copies the rows of a line from their planes to raw data, where the line begins at `start`. It answers where the next
/// line begins.
pub(crate) fn put_line_in_raw<S: RowSource>(
    shape: &Shape,
    line: usize,
    start: usize,
    source: &S,
    into: &mut [u8],
) -> usize
    requires shape { IsShape shape.now.channels.now shape.now.region }
    requires line { line < height_of shape.now.region }
    requires start { start ≡ lines_bytes_of shape.now.channels.now shape.now.region line }
    requires planar { length (S.planar source.now) ≡ raw_size_of shape.now.channels.now shape.now.region }
    requires into { length into.old ≡ raw_size_of shape.now.channels.now shape.now.region }
    ensures next { result ≡ lines_bytes_of shape.now.channels.now shape.now.region (line + 1) }
    ensures moved { AreMoved (planar_row_of shape.now.channels.now shape.now.region) (row_of shape.now.channels.now shape.now.region)
        shape.now.channels.now shape.now.region line (length shape.now.channels.now) (S.planar source.now) into.old into.new }
{
    let mut at = start;
    let mut plane = 0;
    for channel in shape.channels {
        let rows = rows_at(channel, shape.region, line);
        put_row_at(source, plane + rows.above, into, at, rows.here);
        at += rows.here;
        plane += rows.all;
    }
    at
}
