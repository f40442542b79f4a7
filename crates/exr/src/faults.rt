//! The statuses that the program ends with, and the faults whose numbers it prints, one line each: number, name, meaning.
//! A new status or fault is one more line here, one more row in tests.rt, and one more row in docs/FAULTS.md, which
//! tools/check_faults.py compares with these lines.

pub const STATUSES: &str = "\
The program ends with a status. Where that is not 0, a line on standard error
says why, with faults by their numbers.

Statuses
  0  Done                the command was carried out
  1  NoMemory            memory ran out
  2  Words               an argument is invalid, or one is missing
  3  File                a file's head or one of its chunks is faulty
  4  Read                a file could not be opened or read
  5  Write               a file or standard output could not be written
  6  Request             what is asked of the file cannot be had
";

pub const HEAD_FAULTS: &str = "
Faults of a file's head (status 3, head fault N): the first one from the front
   1  Truncated           the file ends inside its head
   2  BadName             no zero byte ends a name within 256 bytes
   3  BadSize             the size of an attribute is negative
   4  Twice               two attributes of a header have one name
   5  BadMagic            the first four bytes are not 76 2f 31 01
   6  BadVersion          the version is not 2, or a flag is unknown
   7  Missing             a required attribute is missing
   8  WrongType           a required attribute has another type
   9  BadChannels         the channel list is malformed, or not in order
  10  BadWindow           the data window is empty
  11  BadSampling         a channel's sampling does not fit the data window
  12  BadTiles            the tile description is invalid
  13  UnknownCompression  the compression method is unknown
  14  BadLineOrder        the line order is unknown, or random in scan lines
  15  BadPartType         the type of a part is unknown
  16  TwicePart           two parts have one name
  17  ChunkCount          chunkCount differs from the computed number of chunks
  18  Limit               a limit on sizes or numbers is exceeded
  19  Levels              mipmap or ripmap levels are not supported so far
  20  BadDeepVersion      the version of deep data is not 1
  21  FieldSize           an attribute's value does not have its type's size
";

pub const CHUNK_FAULTS: &str = "
Faults of a chunk (status 3, part P chunk C fault N): of the first faulty one
  1  Unwritten           its offset is 0: it was never written
  2  Outside             its offset, fields or data are not within the file
  3  WrongPlace          its fields name another part, line, tile or level
  4  WrongSize           the size of its data is none that it may have
  5  Unsupported         its compression method is not supported
  6  Rle                 its run lengths do not stand for the raw size
  7  Piz                 its PIZ data is cut off, or does not unpack
  8  B44                 its B44 data ends too early, or has bytes left over
  9  Deep                its deep data does not unpack, or differs in its sizes
";

pub const REQUEST_FAULTS: &str = "
Faults of a request (status 6, request fault N): the first one in this order
   1  NoPart             the file has no part of that number
   2  DeepWords          a deep part takes no layout, channels, pad, fill, byte
   3  Window             the window is empty or not within the data window
   4  Mixed              channels that share lines or pixels differ in sampling
   5  Layout             the buffer has no valid layout, as when a name repeats
   6  TooLarge           the buffer would have more than 2^30 bytes
   7  Match              a channel has another kind than the one asked for
  11  DeepTooLarge       a deep part's pixels would have more than 2^30 bytes
";

pub const LAYOUT_FAULTS: &str = "
Faults of a layout (request fault 5; these numbers are for callers in code)
  1  Empty               a plane has no runs, or a run no slices
  2  Huge                an offset or a stride is above 2^40
  3  TwiceChannel        two slices have one name
  4  ZeroSampling        the sampling of a plane or a run is 0
  5  Overlap             slices, runs or planes overlap
  6  ShortStride         slices end past their run's or their plane's stride
  7  OutOfBuffer         a plane ends past the buffer
";

pub const MATCH_FAULTS: &str = "
Faults of a layout for a part (request fault 7; numbers for callers in code)
  1  WindowOutside       the window is not within the data window
  2  KindDiffers         the part's channel has another kind than its slice
  3  SamplingDiffers     the part's channel has another sampling than its slice
";
