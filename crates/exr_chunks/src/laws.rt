//! Laws of the chunks of a part. These calls do nothing: their contracts are the laws.

ghost use Rattle.exr_chunks.specs.Heads.{Header};
ghost use Rattle.exr_chunks.specs.Pixels.{HasOneChunkEach};
ghost use Rattle.exr_chunks.specs.Sizes.{JudgesTheFirst, HasNoLarger, IsJudgedForAll};

/// No chunk of a part has more raw bytes than the first, whose size is the one that is validated: no chunk is cut less,
/// and the first begins at a sample of each channel.
pub fn no_chunk_is_larger()
    ensures first { (h : Header) → JudgesTheFirst h }
    ensures others { (h : Header) → HasNoLarger h }
    // The validated size passes the limit exactly where some chunk's size does.
    ensures judged { (h : Header) → IsJudgedForAll h }
{}

/// Each pixel of a data window lies in the region of one chunk of the part.
pub fn each_pixel_has_one_chunk()
    ensures { (h : Header) → HasOneChunkEach h }
{}
