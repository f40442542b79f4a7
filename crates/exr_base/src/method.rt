//! The compression methods and their numbers in files.

ghost use Rattle.std.specs.Prelude.{◌≡◌};
ghost use Rattle.exr_base.specs.Method.{method_of, number_of, lines_of};

/// A compression method. File Layout, "Predefined Attribute Types": compression.
#[derive(Clone, Copy, Debug, PartialEq, Eq)]
pub enum Method {
    /// Raw data.
    No,
    /// Run lengths.
    Rle,
    /// Deflate, a line at a time.
    Zips,
    /// Deflate, 16 lines at a time.
    Zip,
    /// Wavelet and Huffman codes.
    Piz,
    /// Floats cut to 24 bits.
    Pxr24,
    /// Cells of 4 by 4 halves in 14 bytes.
    B44,
    /// As B44, and flat cells in 3 bytes.
    B44a,
    /// Cosine transform, 32 lines at a time.
    Dwaa,
    /// Cosine transform, 256 lines at a time.
    Dwab,
}

impl Method {
    /// The method with a number; `None` exactly above 9.
    pub fn of(number: u8) -> Option<Method>
        ensures { result ≡ method_of number }
    {
        match number {
            0 => Some(Method::No),
            1 => Some(Method::Rle),
            2 => Some(Method::Zips),
            3 => Some(Method::Zip),
            4 => Some(Method::Piz),
            5 => Some(Method::Pxr24),
            6 => Some(Method::B44),
            7 => Some(Method::B44a),
            8 => Some(Method::Dwaa),
            9 => Some(Method::Dwab),
            _ => None,
        }
    }

    /// The number of the method in files, 0 to 9.
    pub fn number(self) -> u8
        ensures { result ≡ number_of self }
    {
        match self {
            Method::No => 0,
            Method::Rle => 1,
            Method::Zips => 2,
            Method::Zip => 3,
            Method::Piz => 4,
            Method::Pxr24 => 5,
            Method::B44 => 6,
            Method::B44a => 7,
            Method::Dwaa => 8,
            Method::Dwab => 9,
        }
    }

    /// Scan lines per block of a scan-line part; the last block of a part may have fewer.
    ///
    /// File Layout, "Regular Scan Line Blocks".
    pub fn lines(self) -> u32
        ensures { result ≡ lines_of self }
    {
        match self {
            Method::No | Method::Rle | Method::Zips => 1,
            Method::Zip | Method::Pxr24 => 16,
            Method::Piz | Method::B44 | Method::B44a | Method::Dwaa => 32,
            Method::Dwab => 256,
        }
    }
}
