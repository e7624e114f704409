use nb_base::{
    Host, Items, Key, Mac, Moment, Name, Nud, OpId, Params, Record, bucket_of, cut, hex_digit,
    is_neighbour, read_hex_digit, read_ip4, read_ip6, read_key, read_mac, read_number, write_key,
    write_mac,
};
use std::alloc::{AllocError, Global};
use std::test::Fail;

fn mac_of(text: &str) -> Option<Mac> {
    read_mac(text.as_bytes())
}

fn is_written(mac: &Mac, text: &str) -> bool {
    write_mac(mac).as_slice() == text.as_bytes()
}

fn is_printed(alloc: Global, mac: &Mac, text: &str) -> Result<bool, AllocError> {
    Ok(mac.to_string(alloc)?.as_str() == text)
}

/// Whether the text says a link address that is written and printed so, and read again.
fn is_link_address(alloc: Global, text: &str, written: &str) -> Result<bool, AllocError> {
    let Some(mac) = mac_of(text) else {
        return Ok(false);
    };
    let same = is_written(&mac, written) && mac_of(written) == Some(mac);
    Ok(same && is_printed(alloc, &mac, written)?)
}

const LINK_ADDRESSES: [(&str, &str); 3] = [
    ("0:11:22:33:44:5", "00:11:22:33:44:05"),
    ("AA:bB:0C:d:E:ff", "aa:bb:0c:0d:0e:ff"),
    ("02:00:00:00:00:02", "02:00:00:00:00:02"),
];

const NO_LINK_ADDRESSES: [&str; 9] = [
    "",
    "::",
    "0:11:22:33:44",
    "0:11:22:33:44:",
    "0:11:22:33:44:5:",
    "0:11:22:33:44:5:6",
    "0:11:22:33:44:005",
    "0:11:22:33:44:g",
    "0-11-22-33-44-5",
];

#[test]
fn link_addresses_in_and_out(rt: HostRuntime) -> Result<(), Fail> {
    for (text, written) in LINK_ADDRESSES {
        assert!(rt; is_link_address(rt.alloc(), text, written)?, "at {text}");
    }
    Ok(())
}

#[test]
fn link_addresses_and_other_texts(rt: HostRuntime) -> Result<(), Fail> {
    let address = Mac([0, 0x11, 0x22, 0x33, 0x44, 5]);
    assert_eq!(rt; mac_of("0:11:22:33:44:5"), Some(address));
    for text in NO_LINK_ADDRESSES {
        assert_eq!(rt; mac_of(text), None, "at {text}");
    }
    Ok(())
}

fn key_of(text: &str) -> Option<Key> {
    read_key(text.as_bytes())
}

fn ip4_of(text: &str) -> Option<u32> {
    read_ip4(text.as_bytes())
}

fn ip6_of(text: &str) -> Option<u128> {
    read_ip6(text.as_bytes())
}

const IP4_ADDRESSES: [(&str, u32); 4] = [
    ("10.0.0.1", 0x0a00_0001),
    ("0.0.0.0", 0),
    ("255.255.255.255", 0xffff_ffff),
    ("192.0.2.99", 0xc000_0263),
];

#[test]
fn ip4_texts(rt: HostRuntime) -> Result<(), Fail> {
    for (text, address) in IP4_ADDRESSES {
        assert_eq!(rt; ip4_of(text), Some(address), "at {text}");
        assert_eq!(rt; key_of(text), Some(Key::V4(address)), "at {text}");
    }
    Ok(())
}

const IP6_ADDRESSES: [(&str, u128); 8] = [
    (
        "FE80:0:0:0:0:0:0:1",
        0xfe80_0000_0000_0000_0000_0000_0000_0001,
    ),
    ("fe80::1", 0xfe80_0000_0000_0000_0000_0000_0000_0001),
    ("::", 0),
    ("::0001", 1),
    ("1::", 0x0001_0000_0000_0000_0000_0000_0000_0000),
    ("1:2:3:4:5:6:7::", 0x0001_0002_0003_0004_0005_0006_0007_0000),
    ("1:2:3::5:6:7:8", 0x0001_0002_0003_0000_0005_0006_0007_0008),
    ("0::0:aBc:0", 0x0abc_0000),
];

#[test]
fn ip6_texts(rt: HostRuntime) -> Result<(), Fail> {
    for (text, address) in IP6_ADDRESSES {
        assert_eq!(rt; ip6_of(text), Some(address), "at {text}");
        assert_eq!(rt; key_of(text), Some(Key::V6(address)), "at {text}");
    }
    Ok(())
}

const NO_KEYS: [&str; 24] = [
    "",
    "1.2.3",
    "1.2.3.4.",
    "1.2.3.4.5",
    "10.0.0.01",
    "256.0.0.1",
    "1..2.3",
    "0x1.2.3.4",
    " 1.2.3.4",
    ":",
    ":::",
    "1::2::3",
    "fe80::1%eth0",
    "1:2:3:4:5:6:7",
    "1:2:3:4:5:6:7:8:9",
    "1:2:3:4::5:6:7:8",
    ":1:2:3:4:5:6:7:8",
    "1:2:3:4:5:6:7:8:",
    "12345::",
    "fe80::g",
    "::10.0.0.1",
    "1:2:3:4:5:6:10.0.0.1",
    "[::1]",
    " ::1",
];

#[test]
fn texts_of_no_key(rt: HostRuntime) -> Result<(), Fail> {
    for text in NO_KEYS {
        assert_eq!(rt; key_of(text), None, "at {text}");
    }
    Ok(())
}

const WRITTEN_KEYS: [(Key, &str); 8] = [
    (Key::V4(0x0a00_0001), "10.0.0.1"),
    (Key::V6(0), "::"),
    (
        Key::V6(0xfe80_0000_0000_0000_0000_0000_0000_0001),
        "fe80::1",
    ),
    (
        Key::V6(0x2001_0db8_0000_0000_0001_0000_0000_0001),
        "2001:db8::1:0:0:1",
    ),
    (
        Key::V6(0x2001_0000_0000_0001_0000_0000_0000_0001),
        "2001:0:0:1::1",
    ),
    (
        Key::V6(0x2001_0db8_0000_0001_0001_0001_0001_0001),
        "2001:db8:0:1:1:1:1:1",
    ),
    (
        Key::V6(0xabc0_0001_0000_0000_0000_0000_0000_0000),
        "abc0:1::",
    ),
    (Key::V6(0xffff_0a00_0001), "::ffff:a00:1"),
];

fn is_written_key(alloc: Global, key: &Key, text: &str) -> Result<bool, AllocError> {
    Ok(write_key(alloc, key)?.as_slice() == text.as_bytes())
}

#[test]
fn written_keys(rt: HostRuntime) -> Result<(), Fail> {
    for (key, text) in WRITTEN_KEYS {
        assert!(rt; is_written_key(rt.alloc(), &key, text)?, "at {text}");
        assert_eq!(rt; key_of(text), Some(key), "at {text}");
    }
    Ok(())
}

fn host(ip4: Option<u32>, ip6: Option<u128>) -> Option<Host> {
    Some(Host {
        dev: name_of("eth0")?,
        mac: Mac([2, 0, 0, 0, 0, 2]),
        ip4,
        ip6,
    })
}

fn may_be_neighbour(host: &Host, key: &Key) -> bool {
    is_neighbour(host, key)
}

/// Keys, and whether they may be neighbours of 10.0.0.2, and of fe80::2.
const NEIGHBOURS: [(Key, bool, bool); 11] = [
    (Key::V4(0x0a00_0001), true, false),
    (Key::V4(0x0a00_0002), false, false),
    (Key::V4(0), false, false),
    (Key::V4(0xdfff_ffff), true, false),
    (Key::V4(0xe000_0000), false, false),
    (Key::V4(0xf000_0001), false, false),
    (Key::V6(1), false, true),
    (
        Key::V6(0xfe80_0000_0000_0000_0000_0000_0000_0001),
        false,
        true,
    ),
    (
        Key::V6(0xfe80_0000_0000_0000_0000_0000_0000_0002),
        false,
        false,
    ),
    (Key::V6(0), false, false),
    (
        Key::V6(0xff02_0000_0000_0000_0000_0000_0000_0001),
        false,
        false,
    ),
];

#[test]
fn neighbours_of_a_host(rt: HostRuntime) -> Result<(), Fail> {
    let old = host(Some(0x0a00_0002), None).ok_or("a name")?;
    let new = host(None, Some(0xfe80_0000_0000_0000_0000_0000_0000_0002)).ok_or("a name")?;
    for (key, of_old, of_new) in NEIGHBOURS {
        assert_eq!(rt; may_be_neighbour(&old, &key), of_old, "at {key}");
        assert_eq!(rt; may_be_neighbour(&new, &key), of_new, "at {key}");
    }
    Ok(())
}

fn name_of(text: &str) -> Option<Name> {
    Name::read(text.as_bytes())
}

/// Whether the text is a device's name, and is written and printed so.
fn is_name(alloc: Global, text: &str) -> Result<bool, AllocError> {
    match name_of(text) {
        Some(name) => {
            let printed = name.to_string(alloc)?;
            Ok(name.as_slice() == text.as_bytes() && printed.as_str() == text)
        }
        None => Ok(false),
    }
}

#[test]
fn names(rt: HostRuntime) -> Result<(), Fail> {
    for text in ["eth0", "a", "br-lan.1_Z", "fifteen.bytes.1"] {
        assert!(rt; is_name(rt.alloc(), text)?, "at {text}");
    }
    for text in ["", "sixteen.bytes.16", "eth 0", "eth0:1", "é"] {
        assert_eq!(rt; name_of(text), None, "at {text}");
    }
    Ok(())
}

/// A state's bits, and whether it is connected, is valid and has a timer.
fn shown(state: Nud) -> (u8, bool, bool, bool) {
    (
        state.bits(),
        state.is_connected(),
        state.is_valid(),
        state.in_timer(),
    )
}

#[test]
fn states(rt: HostRuntime) {
    let cases = [
        (Nud::None, (0, false, false, false)),
        (Nud::Incomplete, (0x01, false, false, true)),
        (Nud::Reachable, (0x02, true, true, true)),
        (Nud::Stale, (0x04, false, true, false)),
        (Nud::Delay, (0x08, false, true, true)),
        (Nud::Probe, (0x10, false, true, true)),
        (Nud::Failed, (0x20, false, false, false)),
        (Nud::Noarp, (0x40, true, true, false)),
        (Nud::Permanent, (0x80, true, true, false)),
    ];
    for (state, wanted) in cases {
        assert_eq!(rt; shown(state), wanted);
    }
}

fn number_of(text: &str) -> Option<u64> {
    read_number(text.as_bytes())
}

#[test]
fn numbers(rt: HostRuntime) {
    let cases = [
        ("0000000042", Some(42)),
        ("9999999999", Some(9_999_999_999)),
        ("00000000042", None),
        ("", None),
        ("4a", None),
    ];
    for (text, wanted) in cases {
        assert_eq!(rt; number_of(text), wanted, "at {text}");
    }
}

fn digit_of(byte: u8) -> Option<u8> {
    read_hex_digit(byte)
}

#[test]
fn digits(rt: HostRuntime) {
    for (byte, value) in [(b'0', 0), (b'9', 9), (b'a', 10), (b'f', 15)] {
        assert_eq!(rt; digit_of(byte), Some(value));
    }
    assert_eq!(rt; hex_digit(15), b'f');
}

#[test]
fn cuts_at_the_first_separator(rt: HostRuntime) {
    let (front, behind) = cut(b"a:b:c", b':');
    assert_eq!(rt; front, b"a".as_slice());
    assert_eq!(rt; behind, Some(b"b:c".as_slice()));
}

fn printed_moment(alloc: Global, moment: Moment) -> Result<String, AllocError> {
    moment.to_string(alloc)
}

fn printed_id(alloc: Global, id: OpId) -> Result<String, AllocError> {
    id.to_string(alloc)
}

#[test]
fn printed_numbers_and_defaults(rt: HostRuntime) -> Result<(), Fail> {
    assert_eq!(rt;
        printed_moment(rt.alloc(), Moment(5).after(10))?.as_str(),
        "15"
    );
    assert_eq!(rt; printed_id(rt.alloc(), OpId(33))?.as_str(), "33");
    assert_eq!(rt; Params::default().proxy_delay, 800);
    Ok(())
}

fn seven_and_nine(alloc: Global) -> Result<Items<u32>, AllocError> {
    let mut items = Items::new(alloc);
    items.push(7)?;
    items.push(9)?;
    Ok(items)
}

#[test]
fn items_in_their_order(rt: HostRuntime) -> Result<(), Fail> {
    let items = seven_and_nine(rt.alloc())?;
    assert_eq!(rt; items.get(1).copied(), Some(9));
    assert_eq!(rt; items.as_slice(), [7, 9].as_slice());
    assert!(rt; !items.is_empty());
    Ok(())
}

const HEADER: [u8; 14] = [0, 0x11, 0x22, 0x33, 0x44, 0x55, 2, 0, 0, 0, 0, 2, 8, 0];

/// The two words of that header's record, of which the second is to have the flag in its lowest bytes.
fn words_of(usable: bool) -> (u64, u64) {
    let record = Record {
        usable,
        header: HEADER,
    };
    record.words()
}

/// Of the record that the words are those of, whether it can be used, and whether it has the header.
fn kind_of(a: u64, b: u64) -> Option<(bool, bool)> {
    let record = Record::of_words(a, b)?;
    Some((record.usable, record.header == HEADER))
}

#[test]
fn records_as_words(rt: HostRuntime) -> Result<(), Fail> {
    let (a, b) = (0x0011_2233_4455_0200, 0x0000_0002_0800_0000);
    for (usable, last) in [(true, 0x100), (false, 0)] {
        assert_eq!(rt; words_of(usable), (a, b + last), "at {last}");
        assert_eq!(rt; kind_of(a, b + last), Some((usable, true)), "at {last}");
    }
    for last in [1, 0x101, 0x200, 0xff00] {
        assert_eq!(rt; kind_of(a, b + last), None, "at {last}");
    }
    Ok(())
}

#[test]
fn buckets_of_keys(rt: HostRuntime) -> Result<(), Fail> {
    let key = Key::V4(0x0a00_00c1);
    assert_eq!(rt;
        (bucket_of(&key, 1), bucket_of(&key, 2), bucket_of(&key, 64)),
        (0, 1, 1)
    );
    assert_eq!(rt;
        bucket_of(&Key::V6(0xfe80_0000_0000_0000_0000_0000_0000_01ff), 16),
        15
    );
    Ok(())
}
