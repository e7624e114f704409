use link_codec::{Arp, read_arp, read_eth, write_arp, write_eth};
use nb_base::Mac;
use std::test::Fail;

const HOST: Mac = Mac([2, 0, 0, 0, 0, 2]);

/// A reply, from 00:11:22:33:44:55 at 10.0.0.1 to the host at 10.0.0.2.
const REPLY: [u8; 28] = [
    0, 1, 8, 0, 6, 4, 0, 2, 0, 0x11, 0x22, 0x33, 0x44, 0x55, 10, 0, 0, 1, 2, 0, 0, 0, 0, 2, 10, 0,
    0, 2,
];

const GROUP: Mac = Mac([0x33, 0x33, 0xff, 0, 0, 1]);

/// A frame from the host to that group.
const FRAME: [u8; 16] = [
    0x33, 0x33, 0xff, 0, 0, 1, 2, 0, 0, 0, 0, 2, 0x86, 0xdd, 0x60, 0,
];

fn written_header() -> [u8; 14] {
    let mut header = [0xee; 14];
    write_eth(&mut header, &GROUP, &HOST, 0x86dd);
    header
}

/// Whether the frame goes from the host to that group, and has this body.
fn is_to_group(frame: &[u8], body: &[u8]) -> bool {
    match read_eth(frame) {
        Some(view) => {
            view.dst == GROUP && view.src == HOST && view.ethertype == 0x86dd && view.body == body
        }
        None => false,
    }
}

#[test]
fn headers_out_and_in(rt: HostRuntime) -> Result<(), Fail> {
    assert_eq!(rt; written_header().as_slice(), &FRAME[..14]);
    assert!(rt; is_to_group(&FRAME, &[0x60, 0]));
    assert!(rt; is_to_group(&FRAME[..14], &[]));
    assert!(rt; read_eth(&FRAME[..13]).is_none());
    Ok(())
}

#[test]
fn packets_out_and_in(rt: HostRuntime) -> Result<(), Fail> {
    let arp = Arp {
        op: 2,
        sha: Mac([0, 0x11, 0x22, 0x33, 0x44, 0x55]),
        spa: 0x0a00_0001,
        tha: HOST,
        tpa: 0x0a00_0002,
    };
    let mut packet = [0xee; 28];
    write_arp(&mut packet, &arp);
    assert_eq!(rt; packet, REPLY);
    assert_eq!(rt; read_arp(&REPLY), Some(arp));
    let mut padded = [0; 46];
    padded[..28].copy_from_slice(&REPLY);
    assert_eq!(rt; read_arp(&padded), Some(arp));
    Ok(())
}

#[test]
fn packets_of_other_kinds(rt: HostRuntime) -> Result<(), Fail> {
    assert_eq!(rt; read_arp(&REPLY[..27]), None);
    let changes: [(usize, u8); 4] = [(1, 6), (2, 0x86), (4, 8), (5, 16)];
    for (place, byte) in changes {
        let mut bytes = REPLY;
        bytes[place % 28] = byte;
        assert_eq!(rt; read_arp(&bytes), None, "at {place}");
    }
    Ok(())
}
