//! Packets of many sizes that wait for an address: each takes 256 bytes and its payload's. The table is cut as `scripts.rt` says.

pub fn table() -> &'static str {
    TABLE
}

const TABLE: &str = "\
== bytes_push_out_two: sizes 500 500 1500
param unres_qlen_bytes 2000
-- report
bucket 0 lines 3
0 0 33 send 10.0.0.1 -> waits
  solicit ffffffffffff020000000002080600010800060400010200000000020a0000020000000000000a000001
  wait 33
1 0 65 send 10.0.0.1 -> waits
  wait 65
2 0 97 send 10.0.0.1 -> waits dropping 2
  drop 33 queuefull
  drop 65 queuefull
  wait 97
host lines 0
sender 1 items 3
1 0 inline 0 waits
2 0 inline 1 waits
3 0 inline 2 waits dropping 2
marks 0
fates sent 0 fast 0 dropped 2 waiting 1
table 1
10.0.0.1 dev eth0 INCOMPLETE
proxies 0
end
== large_packet_waits_alone: sizes 1500 1
param unres_qlen_bytes 1000
-- report
bucket 0 lines 2
0 0 33 send 10.0.0.1 -> waits
  solicit ffffffffffff020000000002080600010800060400010200000000020a0000020000000000000a000001
  wait 33
1 0 65 send 10.0.0.1 -> waits dropping 1
  drop 33 queuefull
  wait 65
host lines 0
sender 1 items 2
1 0 inline 0 waits
2 0 inline 1 waits dropping 1
marks 0
fates sent 0 fast 0 dropped 1 waiting 1
table 1
10.0.0.1 dev eth0 INCOMPLETE
proxies 0
end
== default_room_is_filled_to_the_byte: sizes 1000 1500 828 1001
-- report
bucket 0 lines 4
0 0 33 send 10.0.0.1 -> waits
  solicit ffffffffffff020000000002080600010800060400010200000000020a0000020000000000000a000001
  wait 33
1 0 65 send 10.0.0.1 -> waits
  wait 65
2 0 97 send 10.0.0.1 -> waits
  wait 97
3 0 129 send 10.0.0.1 -> waits dropping 2
  drop 33 queuefull
  drop 65 queuefull
  wait 129
host lines 0
sender 1 items 4
1 0 inline 0 waits
2 0 inline 1 waits
3 0 inline 2 waits
4 0 inline 3 waits dropping 2
marks 0
fates sent 0 fast 0 dropped 2 waiting 2
table 1
10.0.0.1 dev eth0 INCOMPLETE
proxies 0
end
";
