use generated_input::generate;
use nb_base::Bytes;
use std::alloc::Global;
use std::str;
use std::test::Fail;

/// What is compared of a file: how many bytes it has, and the sum of all of them that a factor of 31 makes of 32 bits.
#[derive(Clone, Copy, Debug, PartialEq, Eq)]
struct Digest {
    len: usize,
    sum: u32,
}

fn digest_of(bytes: &[u8]) -> Digest {
    let mut sum = 0u32;
    for byte in bytes {
        sum = sum.wrapping_mul(31).wrapping_add(u32::from(*byte));
    }
    Digest {
        len: bytes.len(),
        sum,
    }
}

// A number, and the capture and the script that are generated from it, computed apart from their definition.
const FILES: [(u64, Digest, Digest); 4] = [
    (
        0,
        Digest {
            len: 580_024,
            sum: 1_209_520_528,
        },
        Digest {
            len: 667_225,
            sum: 620_169_770,
        },
    ),
    (
        1,
        Digest {
            len: 580_024,
            sum: 1_386_743_560,
        },
        Digest {
            len: 667_483,
            sum: 1_228_229_338,
        },
    ),
    (
        7,
        Digest {
            len: 580_024,
            sum: 631_365_545,
        },
        Digest {
            len: 667_318,
            sum: 2_994_668_629,
        },
    ),
    (
        u64::MAX,
        Digest {
            len: 580_024,
            sum: 1_037_144_115,
        },
        Digest {
            len: 667_353,
            sum: 1_388_660_241,
        },
    ),
];

/// The capture and the script that are generated from the number.
fn files_of(alloc: Global, number: u64) -> Result<(Bytes, Bytes), Fail> {
    generate(alloc, number).map_err(|_| "memory".into())
}

fn digests_of(alloc: Global, number: u64) -> Result<(Digest, Digest), Fail> {
    let (capture, script) = files_of(alloc, number)?;
    Ok((digest_of(capture.as_slice()), digest_of(script.as_slice())))
}

#[test]
fn files_of_numbers(rt: HostRuntime) -> Result<(), Fail> {
    for (number, capture, script) in FILES {
        let digests = digests_of(rt.alloc(), number)?;
        assert_eq!(rt; digests, (capture, script), "{number}");
    }
    Ok(())
}

/// Whether the capture has these bytes at the place.
fn has_at(capture: &[u8], place: usize, bytes: &[u8]) -> bool {
    match capture.get(place..) {
        Some(rest) => rest.starts_with(bytes),
        None => false,
    }
}

#[test]
fn the_first_record_is_a_request_of_the_eighth_neighbour(rt: HostRuntime) -> Result<(), Fail> {
    let (capture, _script) = files_of(rt.alloc(), 0)?;
    assert!(rt; has_at(capture.as_slice(), 40, &[0xff; 6]), "to all");
    assert!(rt;
        has_at(capture.as_slice(), 68, &[10, 0, 1, 8]),
        "from the eighth"
    );
    Ok(())
}

/// Whether the line of this number, counted from 0, is this.
fn has_line(script: &[u8], number: usize, line: &str) -> bool {
    match str::from_utf8(script) {
        Ok(text) => text.lines().nth(number) == Some(line),
        Err(_) => false,
    }
}

#[test]
fn the_first_packet_stands_behind_the_head(rt: HostRuntime) -> Result<(), Fail> {
    let (_capture, script) = files_of(rt.alloc(), 0)?;
    let host = "host dev eth0 lladdr 02:00:00:00:00:02 inet 10.0.0.2";
    assert!(rt; has_line(script.as_slice(), 0, host));
    assert!(rt; has_line(script.as_slice(), 16, "@0 send 1 10.0.1.156 00000000"));
    Ok(())
}
