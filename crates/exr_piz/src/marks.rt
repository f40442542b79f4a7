//! The values that occur among words, one mark for each; the map's bytes, eight marks to a byte; and the ranks of the
//! values, which take the place of the words.

ghost use Rattle.std.specs.Prelude.{◌≡◌, ◌≢◌, ℕ, ◌+◌, ◌*◌, ◌<◌, ◌≤◌, ◌==◌, length, map, slice_index, if◌then◌else◌};
ghost use Rattle.exr_piz.specs.Values.{passing_below, is_set, number_with};
ghost use Rattle.exr_piz.specs.Marks.{AreMarks, is_counted};

/// A bound of the words: none is above it, and it is 0 or one of them.
pub(crate) fn greatest_word(words: &[u16]) -> u16
    ensures { (k : ℕ) → k < length words.now → slice_index words.now k ≤ result }
{
    let mut greatest = 0;
    for word in words {
        greatest = greatest.max(*word);
    }
    greatest
}

/// Marks each value but 0 that occurs among words.
pub(crate) fn put_marks(words: &[u16], marks: &mut [u8])
    requires within { (k : ℕ) → k < length words.now → slice_index words.now k < length marks.old }
    requires none { (v : ℕ) → slice_index marks.old v ≡ 0 }
    requires some { 0 < length marks.old }
    ensures { (v : ℕ) → v < length marks.new → slice_index marks.new v ≡ (if is_set words.now v then 1 else 0) }
{
    for word in words {
        marks[*word as usize] = 1;
    }
    marks[0] = 0;
}

/// Eight marks as a byte, the low bit first.
#[inline(always)]
fn byte_at(marks: &[u8], at: usize) -> u8
    requires within { 8 * at + 8 ≤ length marks.now }
    requires marks { AreMarks marks.now }
    ensures { result ≡ number_with (λ i. slice_index marks.now (8 * at + i) == 1) 8 }
{
    let mut byte = 0u8;
    for i in 0..8 {
        byte += marks[8 * at + i] << i;
    }
    byte
}

/// The marks, eight to a byte.
pub(crate) fn put_map(marks: &[u8], map: &mut [u8])
    requires size { length marks.now ≡ 8 * length map.old }
    requires marks { AreMarks marks.now }
    ensures { (b : ℕ) → b < length map.new → slice_index map.new b ≡ number_with (λ i. slice_index marks.now (8 * b + i) == 1) 8 }
{
    for (b, byte) in map.iter_mut().enumerate() {
        *byte = byte_at(marks, b);
    }
}

/// For each value, how many of 0 and the marked values are below it. Gives the greatest rank.
pub(crate) fn put_ranks(marks: &[u8], ranks: &mut [u16]) -> u16
    requires same { length ranks.old ≡ length marks.now }
    requires few { length marks.now ≤ 65536 }
    requires some { 0 < length marks.now }
    requires marks { AreMarks marks.now }
    ensures ranks { (v : ℕ) → v < length ranks.new → slice_index ranks.new v ≡ length (passing_below (is_counted marks.now) v) }
    ensures greatest { result + 1 ≡ length (passing_below (is_counted marks.now) (length marks.now)) }
{
    ranks[0] = 0;
    let mut below = 1usize;
    for v in 1..marks.len() {
        ranks[v] = below as u16;
        below += marks[v] as usize;
    }
    (below - 1) as u16
}

/// Replaces each word by its rank.
pub(crate) fn renumber(ranks: &[u16], words: &mut [u16])
    requires { (k : ℕ) → k < length words.old → slice_index words.old k < length ranks.now }
    ensures { words.new ≡ map (slice_index ranks.now) words.old }
{
    for word in words.iter_mut() {
        *word = ranks[*word as usize];
    }
}

/// How many bytes in front are zero.
pub(crate) fn zeros_in_front(map: &[u8]) -> usize
    ensures within { result ≤ length map.now }
    ensures zeros { (b : ℕ) → b < result → slice_index map.now b ≡ 0 }
    ensures other { result < length map.now → slice_index map.now result ≢ 0 }
{
    let mut count = 0;
    'zeros: while count < map.len() && map[count] == 0 {
        count += 1;
    }
    count
}

/// How many bytes are left in front of the zeros at the end.
pub(crate) fn without_zeros_behind(map: &[u8]) -> usize
    ensures within { result ≤ length map.now }
    ensures zeros { (b : ℕ) → result ≤ b → slice_index map.now b ≡ 0 }
    ensures other { (b : ℕ) → b + 1 ≡ result → slice_index map.now b ≢ 0 }
{
    let mut count = map.len();
    'zeros: while count > 0 && map[count - 1] == 0 {
        count -= 1;
    }
    count
}
