use nb_base::{Items, Moment};
use pcap_records::{Frame, Rec, read, write};
use std::alloc::Global;
use std::test::Fail;

/// A file with one record of 14 bytes, at 10 s and 1,999 microseconds.
fn one_record(alloc: Global) -> Result<Vec<u8>, Fail> {
    let file = [
        0xa1, 0xb2, 0xc3, 0xd4, 0, 2, 0, 4, 0, 0, 0, 0, 0, 0, 0, 0, 0, 4, 0, 0, 0, 0, 0, 1, 0, 0,
        0, 10, 0, 0, 0x07, 0xcf, 0, 0, 0, 14, 0, 0, 0, 14, 1, 2, 3, 4, 5, 6, 7, 8, 9, 10, 11, 12,
        13, 14,
    ];
    Ok(file.to_vec(alloc)?)
}

/// That file with another byte at a place.
fn with_byte(mut file: Vec<u8>, place: usize, byte: u8) -> Vec<u8> {
    if let Some(old) = file.get_mut(place) {
        *old = byte;
    }
    file
}

/// The file with one record with another byte at a place.
fn damaged(alloc: Global, place: usize, byte: u8) -> Result<Vec<u8>, Fail> {
    Ok(with_byte(one_record(alloc)?, place, byte))
}

/// The refusal's number and place, or none.
fn refusal(alloc: Global, file: &[u8]) -> Option<(u8, usize)> {
    match read(alloc, file) {
        Ok(_) => None,
        Err(fail) => Some((fail.code(), fail.place())),
    }
}

/// The refusal of that file cut to so many bytes.
fn refusal_of_cut(len: usize) -> Option<(u8, usize)> {
    match len {
        0..24 => Some((1, 0)),
        24 | 54 => None,
        _ => Some((5, 24)),
    }
}

#[test]
fn cut_capture_and_empty_capture(rt: HostRuntime) -> Result<(), Fail> {
    let file = one_record(rt.alloc())?;
    for len in 0..55 {
        let cut = file.get(..len).ok_or("a front")?;
        assert_eq!(rt; refusal(rt.alloc(), cut), refusal_of_cut(len), "at {len}");
    }
    let mut says_sixty = damaged(rt.alloc(), 35, 60)?;
    says_sixty.extend_from_slice(&[0; 45])?;
    assert_eq!(rt; refusal(rt.alloc(), &says_sixty), Some((5, 24)));
    Ok(())
}

#[test]
fn moments_never_fall(rt: HostRuntime) -> Result<(), Fail> {
    let file = [
        0x4d, 0x3c, 0xb2, 0xa1, 2, 0, 4, 0, 0, 0, 0, 0, 0, 0, 0, 0, 0, 0, 0, 0, 1, 0, 0, 0, 10, 0,
        0, 0, 0x00, 0x65, 0xcd, 0x1d, 0, 0, 0, 0, 0, 0, 0, 0, 9, 0, 0, 0, 0, 0, 0, 0, 0, 0, 0, 0,
        0, 0, 0, 0,
    ];
    let capture = read(rt.alloc(), &file)?;
    let wanted = [
        Rec {
            at: Moment(0),
            start: 40,
            len: 0,
        },
        Rec {
            at: Moment(0),
            start: 56,
            len: 0,
        },
    ];
    assert_eq!(rt; capture.as_slice(), wanted.as_slice());
    Ok(())
}

/// The refusal of the file with one record, with another byte at a place.
fn refusal_of_damage(alloc: Global, place: usize, byte: u8) -> Result<Option<(u8, usize)>, Fail> {
    Ok(refusal(alloc, &damaged(alloc, place, byte)?))
}

#[test]
fn damaged_files(rt: HostRuntime) -> Result<(), Fail> {
    let cases = [
        (3, 0xd5, Some((2, 0))),
        (5, 1, Some((3, 4))),
        (7, 3, Some((3, 4))),
        (23, 113, Some((4, 20))),
        (21, 1, None),
        (35, 15, Some((5, 24))),
        (35, 13, Some((5, 53))),
    ];
    for (place, byte, wanted) in cases {
        let given = refusal_of_damage(rt.alloc(), place, byte)?;
        assert_eq!(rt; given, wanted, "at {place}");
    }
    Ok(())
}

#[test]
fn a_record_of_one_byte_too_many(rt: HostRuntime) -> Result<(), Fail> {
    let one_above = with_byte(damaged(rt.alloc(), 33, 4)?, 35, 1);
    assert_eq!(rt; refusal(rt.alloc(), &one_above), Some((6, 24)));
    Ok(())
}

#[test]
fn as_many_records_as_a_file_holds(rt: HostRuntime) -> Result<(), Fail> {
    let mut file = one_record(rt.alloc())?;
    file.truncate(24);
    for _ in 0..262_144 {
        file.extend_from_slice(&[0; 16])?;
    }
    assert_eq!(rt; refusal(rt.alloc(), &file), None);
    file.push(0)?;
    assert_eq!(rt; refusal(rt.alloc(), &file), Some((7, 4_194_328)));
    Ok(())
}

#[test]
fn a_written_frame_is_read_again(rt: HostRuntime) -> Result<(), Fail> {
    let bytes = Items::from_vec([1, 2, 3].to_vec(rt.alloc())?);
    let frame = Frame {
        at: Moment(0),
        bytes,
    };
    let file = write(rt.alloc(), &[frame])?;
    assert_eq!(rt; file.len(), 43);
    let capture = read(rt.alloc(), file.as_slice())?;
    let wanted = [Rec {
        at: Moment(0),
        start: 40,
        len: 3,
    }];
    assert_eq!(rt; capture.as_slice(), wanted.as_slice());
    Ok(())
}
