//! Each kernel once: checksums that the C twins of tools/bench print for the same bytes, and files of another form.

use super::sum_of;
use crate::stop::Stop;
use std::alloc::Global;

/// The checksum, or why there is none.
fn found(alloc: Global, kernel: &str, bytes: &[u8], repeats: u32) -> Option<u64> {
    sum_of(alloc, kernel, bytes, repeats).ok()
}

fn stopped(alloc: Global, kernel: &str, bytes: &[u8]) -> Option<Stop> {
    sum_of(alloc, kernel, bytes, 1).err()
}

#[test]
fn each_kernel(rt: HostRuntime) {
    let cases: [(&str, &[u8], u64, u64); 5] = [
        (
            "rle-pack",
            b"aaaaaaaaabbbbbbbbbbcdefgh",
            808582339199134809,
            6234255993274289691,
        ),
        (
            "rle-unpack",
            b"\x08\0\0\0\xff\0\x02\x80\xff\xbc\x02\x80",
            53305689840,
            51226767936300,
        ),
        (
            "wavelet-encode",
            b"\x03\0\0\0\x02\0\0\0\xff\x3f\0\0\0\0\x01\0\x02\0\x03\0\x04\0\x05\0",
            60614710005,
            58250681058451,
        ),
        (
            "wavelet-decode",
            b"\x03\0\0\0\x02\0\0\0\0\x40\0\0\0\0\x01\0\x02\0\x03\0\x04\0\x05\0",
            485346753559,
            465903814617812,
        ),
        (
            "huffman-unpack",
            b"\0\x02\0\0\x07\0\0\0\x08\0\0\0\x02\0\0\0\x14\0\0\0\0\0\0\0\x04\x10\x7f\xdf\xf0",
            10922646116081917952,
            465539613988282592,
        ),
    ];
    for (kernel, bytes, once, thrice) in cases {
        assert_eq!(rt; found(rt.alloc(), kernel, bytes, 0), Some(0), "{kernel}");
        assert_eq!(rt; found(rt.alloc(), kernel, bytes, 1), Some(once), "{kernel}");
        assert_eq!(rt;
            found(rt.alloc(), kernel, bytes, 3),
            Some(thrice),
            "{kernel}"
        );
    }
}

#[test]
fn other_forms(rt: HostRuntime) {
    for kernel in [
        "rle-unpack",
        "wavelet-encode",
        "wavelet-decode",
        "huffman-unpack",
    ] {
        for bytes in [
            b"\x01\0\0".as_slice(),
            b"\x03\0\0\0\x02\0\0\0\0\0\x01\0\0\0",
        ] {
            assert_eq!(rt;
                stopped(rt.alloc(), kernel, bytes),
                Some(Stop::Form),
                "{kernel}"
            );
        }
    }
    assert_eq!(rt; stopped(rt.alloc(), "rle", b""), Some(Stop::Words));
}
