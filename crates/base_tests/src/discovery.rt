use nb_base::Mac;
use nd_codec::{Nd, NdFail, checksum, read_nd, write_advert, write_solicit};

const HOST: u128 = 0xfe80_0000_0000_0000_0000_0000_0000_0002;

const OTHER: u128 = 0xfe80_0000_0000_0000_0000_0000_0000_0001;

/// ff02::1:ff00:1, the solicited-node address of fe80::1.
const NODE: u128 = 0xff02_0000_0000_0000_0000_0001_ff00_0001;

/// ff02::1, all nodes.
const ALL: u128 = 0xff02_0000_0000_0000_0000_0000_0000_0001;

/// No change of a packet, before one that counts.
const SAME: (usize, u8) = (0, 0x60);

/// From the host to ff02::1:ff00:1 for fe80::1.
const SOLICIT: [u8; 72] = [
    0x60, 0, 0, 0, 0, 32, 58, 255, 0xfe, 0x80, 0, 0, 0, 0, 0, 0, 0, 0, 0, 0, 0, 0, 0, 2, 0xff, 2,
    0, 0, 0, 0, 0, 0, 0, 0, 0, 1, 0xff, 0, 0, 1, 0x87, 0, 0x7a, 0x97, 0, 0, 0, 0, 0xfe, 0x80, 0, 0,
    0, 0, 0, 0, 0, 0, 0, 0, 0, 0, 0, 1, 1, 1, 2, 0, 0, 0, 0, 2,
];

/// From the host to fe80::1 for the host, with S and O.
const ADVERT: [u8; 72] = [
    0x60, 0, 0, 0, 0, 32, 58, 255, 0xfe, 0x80, 0, 0, 0, 0, 0, 0, 0, 0, 0, 0, 0, 0, 0, 2, 0xfe,
    0x80, 0, 0, 0, 0, 0, 0, 0, 0, 0, 0, 0, 0, 0, 1, 0x88, 0, 0x18, 0x1a, 0x60, 0, 0, 0, 0xfe, 0x80,
    0, 0, 0, 0, 0, 0, 0, 0, 0, 0, 0, 0, 0, 2, 2, 1, 2, 0, 0, 0, 0, 2,
];

/// The packet with two bytes changed.
fn changed(packet: [u8; 72], changes: [(usize, u8); 2]) -> [u8; 72] {
    let mut bytes = packet;
    for (place, byte) in changes {
        if let Some(at) = bytes.get_mut(place) {
            *at = byte;
        }
    }
    bytes
}

/// The packet with the right checksum of as many bytes as its payload length says.
fn summed(packet: [u8; 72]) -> [u8; 72] {
    let mut bytes = packet;
    bytes[42] = 0;
    bytes[43] = 0;
    let end = 40 + usize::from(bytes[5]);
    if let Some(message) = bytes.get(40..end) {
        let source = if bytes[8] == 0 { 0 } else { HOST };
        let dest = if packet[24] == 0xff { NODE } else { OTHER };
        let [high, low] = checksum(source, dest, message).to_be_bytes();
        bytes[42] = high;
        bytes[43] = low;
    }
    bytes
}

#[test]
fn both_ways(rt: HostRuntime) {
    let mac = Mac([2, 0, 0, 0, 0, 2]);
    let mut bytes = [0; 72];
    write_solicit(&mut bytes, HOST, NODE, OTHER, &mac);
    assert_eq!(rt; bytes, SOLICIT);
    assert_eq!(rt;
        read_nd(&SOLICIT),
        Ok(Nd::Solicit {
            source: HOST,
            dest: NODE,
            target: OTHER,
            lladdr: Some(mac),
        })
    );
    write_advert(&mut bytes, HOST, OTHER, HOST, true, true, &mac);
    assert_eq!(rt; bytes, ADVERT);
    assert_eq!(rt;
        read_nd(&ADVERT),
        Ok(Nd::Advert {
            source: HOST,
            dest: OTHER,
            target: HOST,
            router: false,
            solicited: true,
            overrides: true,
            lladdr: Some(mac),
        })
    );
}

/// What is read of the packet with two bytes changed and the right checksum.
fn read_changed(first: (usize, u8), second: (usize, u8)) -> Result<Nd, NdFail> {
    read_nd(&summed(changed(SOLICIT, [first, second])))
}

/// What is read of a solicitation from this source to this group, as written.
fn read_solicit(source: u128, dest: u128) -> Result<Nd, NdFail> {
    let mut bytes = [0; 72];
    write_solicit(&mut bytes, source, dest, OTHER, &Mac([2, 0, 0, 0, 0, 2]));
    read_nd(&bytes)
}

/// What is read of an advertisement to ff02::1, as written.
fn read_advert(solicited: bool) -> Result<Nd, NdFail> {
    let mut bytes = [0; 72];
    let mac = Mac([2, 0, 0, 0, 0, 2]);
    write_advert(&mut bytes, HOST, ALL, HOST, solicited, true, &mac);
    read_nd(&bytes)
}

#[test]
fn bad_checksum_and_zero_option(rt: HostRuntime) {
    assert_eq!(rt;
        read_nd(&changed(SOLICIT, [SAME, (43, 0x96)])),
        Err(NdFail::Checksum)
    );
    assert_eq!(rt; read_changed(SAME, (65, 0)), Err(NdFail::ZeroOption));
}

#[test]
fn each_check_by_itself(rt: HostRuntime) {
    let cases = [
        (0, 0x50, NdFail::Short),
        (4, 1, NdFail::Short),
        (5, 16, NdFail::Short),
        (6, 59, NdFail::NotIcmp),
        (5, 0, NdFail::NotIcmp),
        (40, 134, NdFail::NotIcmp),
        (7, 64, NdFail::HopLimit),
        (41, 1, NdFail::Code),
        (48, 0xff, NdFail::Target),
        (65, 2, NdFail::ZeroOption),
        // Odd lengths: the option ends past the message, a single byte is left.
        (5, 31, NdFail::ZeroOption),
        (5, 25, NdFail::ZeroOption),
    ];
    for (place, byte, fail) in cases {
        assert_eq!(rt; read_changed(SAME, (place, byte)), Err(fail), "at {place}");
    }
}

#[test]
fn sources_and_groups(rt: HostRuntime) {
    for group in [ALL, NODE] {
        assert_eq!(rt; read_solicit(0, group), Err(NdFail::Unspecified));
    }
    assert_eq!(rt; read_advert(true), Err(NdFail::SolicitedToGroup));
    assert_eq!(rt; read_advert(false).is_ok(), true);
}

#[test]
fn the_first_of_two(rt: HostRuntime) {
    let cases = [
        ((0, 0x50), (6, 59), NdFail::Short),
        ((6, 59), (7, 64), NdFail::NotIcmp),
        ((7, 64), (41, 1), NdFail::HopLimit),
        ((48, 0xff), (65, 0), NdFail::Target),
    ];
    for (first, second, fail) in cases {
        assert_eq!(rt; read_changed(first, second), Err(fail), "at {}", first.0);
    }
    // Beside a wrong checksum.
    for (place, byte, fail) in [(41, 1, NdFail::Code), (48, 0xff, NdFail::Checksum)] {
        let packet = changed(SOLICIT, [SAME, (place, byte)]);
        assert_eq!(rt; read_nd(&packet), Err(fail), "at {place}");
    }
    // From the unspecified address, with an option of length 0.
    let unspecified = changed(SOLICIT, [(8, 0), (9, 0)]);
    assert_eq!(rt;
        read_nd(&summed(changed(unspecified, [(23, 0), (65, 0)]))),
        Err(NdFail::ZeroOption)
    );
}

#[test]
fn bytes_of_other_numbers(rt: HostRuntime) {
    assert_eq!(rt; read_nd(&SOLICIT[..39]), Err(NdFail::Short));
    assert_eq!(rt; read_nd(&SOLICIT[..71]), Err(NdFail::Short));
    // Bytes behind the payload are left unread.
    let mut bytes = [0xff; 75];
    bytes[..72].copy_from_slice(&SOLICIT);
    assert_eq!(rt; read_nd(&bytes).is_ok(), true);
}
