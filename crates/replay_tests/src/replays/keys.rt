//! Scripts with IPv6 addresses. The table is cut as `cases.rt` says.

pub fn table() -> &'static str {
    TABLE
}

const TABLE: &str = "\
== first_packet_asks_the_solicited_node: --script s
host dev eth0 lladdr 02:00:00:00:00:02 inet 10.0.0.2 inet6 fe80::2
@0 send 1 fe80::1 01
@3000 neigh show
-- report
neigh 1 mode inline buckets 1 senders 1 window 50
host dev eth0 lladdr 02:00:00:00:00:02 inet 10.0.0.2 inet6 fe80::2
bucket 0 lines 5
0 0 33 send fe80::1 -> waits
  solicit 3333ff00000102000000000286dd6000000000203afffe800000000000000000000000000002ff0200000000000000000001ff00000187007a9700000000fe8000000000000000000000000000010101020000000002
  wait 33
1 1000 - timer fe80::1 -> -
  solicit 3333ff00000102000000000286dd6000000000203afffe800000000000000000000000000002ff0200000000000000000001ff00000187007a9700000000fe8000000000000000000000000000010101020000000002
2 2000 - timer fe80::1 -> -
  solicit 3333ff00000102000000000286dd6000000000203afffe800000000000000000000000000002ff0200000000000000000001ff00000187007a9700000000fe8000000000000000000000000000010101020000000002
3 3000 - timer fe80::1 -> -
  drop 33 unresolved
4 3000 32 show -> counted 1
  entry fe80::1 dev eth0 FAILED
host lines 1
1 3000 neigh op 0 4 counted 1
sender 1 items 1
1 0 inline 0 waits
marks 0
fates sent 0 fast 0 dropped 1 waiting 0
table 1
fe80::1 dev eth0 FAILED
proxies 0
end
== solicited_node_has_the_last_24_bits: --script s
host dev eth0 lladdr 02:00:00:00:00:02 inet 10.0.0.2 inet6 fe80::2
@0 send 1 2001:db8::12:3456 01
@0 send 1 2001:db8::ffff:ffff 02
@500 neigh show
-- report
neigh 1 mode inline buckets 1 senders 1 window 50
host dev eth0 lladdr 02:00:00:00:00:02 inet 10.0.0.2 inet6 fe80::2
bucket 0 lines 3
0 0 33 send 2001:db8::12:3456 -> waits
  solicit 3333ff12345602000000000286dd6000000000203afffe800000000000000000000000000002ff0200000000000000000001ff1234568700e2900000000020010db80000000000000000001234560101020000000002
  wait 33
1 0 65 send 2001:db8::ffff:ffff -> waits
  solicit 3333ffffffff02000000000286dd6000000000203afffe800000000000000000000000000002ff0200000000000000000001ffffffff87004a620000000020010db80000000000000000ffffffff0101020000000002
  wait 65
2 500 32 show -> counted 2
  entry 2001:db8::12:3456 dev eth0 INCOMPLETE
  entry 2001:db8::ffff:ffff dev eth0 INCOMPLETE
host lines 1
1 500 neigh op 0 2 counted 2
sender 1 items 2
1 0 inline 0 waits
2 0 inline 1 waits
marks 0
fates sent 0 fast 0 dropped 0 waiting 2
table 2
2001:db8::12:3456 dev eth0 INCOMPLETE
2001:db8::ffff:ffff dev eth0 INCOMPLETE
proxies 0
end
== stale_entry_is_asked_at_its_address: --script s
host dev eth0 lladdr 02:00:00:00:00:02 inet6 fe80::2
@0 neigh add fe80::1 lladdr 00:11:22:33:44:55 nud stale
@0 send 1 fe80::1 6000
@8000 neigh show
-- report
neigh 1 mode inline buckets 1 senders 1 window 50
host dev eth0 lladdr 02:00:00:00:00:02 inet6 fe80::2
bucket 0 lines 7
0 0 32 add fe80::1 00:11:22:33:44:55 stale -> done
1 0 33 send fe80::1 -> sent
  tx 33 00112233445502000000000286dd6000
2 5000 - timer fe80::1 -> -
  solicit 00112233445502000000000286dd6000000000203afffe800000000000000000000000000002fe80000000000000000000000000000187007a1b00000000fe8000000000000000000000000000010101020000000002
3 6000 - timer fe80::1 -> -
  solicit 00112233445502000000000286dd6000000000203afffe800000000000000000000000000002fe80000000000000000000000000000187007a1b00000000fe8000000000000000000000000000010101020000000002
4 7000 - timer fe80::1 -> -
  solicit 00112233445502000000000286dd6000000000203afffe800000000000000000000000000002fe80000000000000000000000000000187007a1b00000000fe8000000000000000000000000000010101020000000002
5 8000 - timer fe80::1 -> -
6 8000 64 show -> counted 1
  entry fe80::1 dev eth0 FAILED
host lines 2
1 0 neigh op 0 0 done
2 8000 neigh op 0 6 counted 1
sender 1 items 1
1 0 inline 1 sent
marks 0
fates sent 1 fast 0 dropped 0 waiting 0
table 1
fe80::1 dev eth0 FAILED
proxies 0
end
== addresses_have_one_written_form: --script s
host dev eth0 lladdr 02:00:00:00:00:02 inet 10.0.0.2 inet6 fe80::2
@0 neigh add FE80:0:0:0:0:0:0:1 lladdr 00:11:22:33:44:55 nud permanent
@0 neigh add 2001:db8:0:0:1:0:0:1 lladdr 00:11:22:33:44:66 nud noarp
@0 neigh add 10.0.0.1 lladdr 00:11:22:33:44:77 nud permanent
@0 neigh add 1:0:2:0:3:0:4:0 lladdr 00:11:22:33:44:55 nud permanent
@0 neigh add 0:0:0:0:0:0:0:1 lladdr 00:11:22:33:44:55 nud permanent
@0 neigh add fe80::0001 lladdr 00:11:22:33:44:66 nud stale
@1 neigh show
-- report
neigh 1 mode inline buckets 1 senders 1 window 50
host dev eth0 lladdr 02:00:00:00:00:02 inet 10.0.0.2 inet6 fe80::2
bucket 0 lines 7
0 0 32 add fe80::1 00:11:22:33:44:55 permanent -> done
1 0 64 add 2001:db8::1:0:0:1 00:11:22:33:44:66 noarp -> done
2 0 96 add 10.0.0.1 00:11:22:33:44:77 permanent -> done
3 0 128 add 1:0:2:0:3:0:4:0 00:11:22:33:44:55 permanent -> done
4 0 160 add ::1 00:11:22:33:44:55 permanent -> done
5 0 192 add fe80::1 00:11:22:33:44:66 stale -> exists
6 1 224 show -> counted 5
  entry fe80::1 dev eth0 lladdr 00:11:22:33:44:55 PERMANENT
  entry 2001:db8::1:0:0:1 dev eth0 lladdr 00:11:22:33:44:66 NOARP
  entry 10.0.0.1 dev eth0 lladdr 00:11:22:33:44:77 PERMANENT
  entry 1:0:2:0:3:0:4:0 dev eth0 lladdr 00:11:22:33:44:55 PERMANENT
  entry ::1 dev eth0 lladdr 00:11:22:33:44:55 PERMANENT
host lines 7
1 0 neigh op 0 0 done
2 0 neigh op 0 1 done
3 0 neigh op 0 2 done
4 0 neigh op 0 3 done
5 0 neigh op 0 4 done
6 0 neigh op 0 5 exists
7 1 neigh op 0 6 counted 5
sender 1 items 0
marks 0
fates sent 0 fast 0 dropped 0 waiting 0
table 5
fe80::1 dev eth0 lladdr 00:11:22:33:44:55 PERMANENT
2001:db8::1:0:0:1 dev eth0 lladdr 00:11:22:33:44:66 NOARP
10.0.0.1 dev eth0 lladdr 00:11:22:33:44:77 PERMANENT
1:0:2:0:3:0:4:0 dev eth0 lladdr 00:11:22:33:44:55 PERMANENT
::1 dev eth0 lladdr 00:11:22:33:44:55 PERMANENT
proxies 0
end
== both_families_in_one_table: --script s
host dev eth0 lladdr 02:00:00:00:00:02 inet 10.0.0.2 inet6 fe80::2
senders 2
@0 send 2 fe80::1 0a
@0 send 1 10.0.0.1 0b
@5 neigh replace fe80::1 lladdr 00:11:22:33:44:55 nud reachable
@6 neigh replace 10.0.0.1 lladdr 00:11:22:33:44:66 nud reachable
@7 neigh flush
@7 neigh show
-- report
neigh 1 mode inline buckets 1 senders 2 window 50
host dev eth0 lladdr 02:00:00:00:00:02 inet 10.0.0.2 inet6 fe80::2
bucket 0 lines 6
0 0 33 send 10.0.0.1 -> waits
  solicit ffffffffffff020000000002080600010800060400010200000000020a0000020000000000000a000001
  wait 33
1 0 34 send fe80::1 -> waits
  solicit 3333ff00000102000000000286dd6000000000203afffe800000000000000000000000000002ff0200000000000000000001ff00000187007a9700000000fe8000000000000000000000000000010101020000000002
  wait 34
2 5 32 replace fe80::1 00:11:22:33:44:55 reachable -> done
  tx 34 00112233445502000000000286dd0a
3 6 64 replace 10.0.0.1 00:11:22:33:44:66 reachable -> done
  tx 33 00112233446602000000000208000b
4 7 96 flush -> counted 2
5 7 128 show -> counted 0
host lines 4
1 5 neigh op 0 2 done
2 6 neigh op 0 3 done
3 7 neigh op 0 4 counted 2
4 7 neigh op 0 5 counted 0
sender 1 items 1
1 0 inline 0 waits
sender 2 items 1
1 0 inline 1 waits
marks 0
fates sent 2 fast 0 dropped 0 waiting 0
table 0
proxies 0
end
== operations_by_hand_on_ipv6_keys: --script s
host dev eth0 lladdr 02:00:00:00:00:02 inet 10.0.0.2 inet6 fe80::2
@0 neigh change fe80::1 lladdr 00:11:22:33:44:55
@0 neigh add fe80::1
@0 neigh add fe80::1 lladdr 00:11:22:33:44:55 nud stale
@0 neigh add fe80::1 lladdr 00:11:22:33:44:66
@1 confirm fe80::1
@1 neigh change fe80::1 nud reachable
@2 neigh replace fe80::1 lladdr 00:11:22:33:44:66 nud noarp
@2 send 1 fe80::1 0c
@3 neigh del fe80::1
@3 neigh del fe80::1
@3 confirm fe80::1
@4 neigh show
-- report
neigh 1 mode inline buckets 1 senders 1 window 50
host dev eth0 lladdr 02:00:00:00:00:02 inet 10.0.0.2 inet6 fe80::2
bucket 0 lines 12
0 0 32 change fe80::1 00:11:22:33:44:55 permanent -> missing
1 0 64 add fe80::1 - permanent -> noaddress
2 0 96 add fe80::1 00:11:22:33:44:55 stale -> done
3 0 128 add fe80::1 00:11:22:33:44:66 permanent -> exists
4 1 160 confirm fe80::1 -> done
5 1 192 change fe80::1 - reachable -> done
6 2 224 replace fe80::1 00:11:22:33:44:66 noarp -> done
7 2 33 send fe80::1 -> sent
  tx 33 00112233446602000000000286dd0c
8 3 256 del fe80::1 -> done
9 3 288 del fe80::1 -> missing
10 3 320 confirm fe80::1 -> ignored
11 4 352 show -> counted 0
host lines 11
1 0 neigh op 0 0 missing
2 0 neigh op 0 1 noaddress
3 0 neigh op 0 2 done
4 0 neigh op 0 3 exists
5 1 neigh op 0 4 done
6 1 neigh op 0 5 done
7 2 neigh op 0 6 done
8 3 neigh op 0 8 done
9 3 neigh op 0 9 missing
10 3 neigh op 0 10 ignored
11 4 neigh op 0 11 counted 0
sender 1 items 1
1 2 inline 7 sent
marks 0
fates sent 1 fast 0 dropped 0 waiting 0
table 0
proxies 0
end
";
