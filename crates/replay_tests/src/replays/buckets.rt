//! Scripts and captures over several buckets. The table is cut as `cases.rt` says.

pub fn table() -> &'static str {
    TABLE
}

const TABLE: &str = "\
== flush_over_four_buckets: --script s --buckets 4
host dev eth0 lladdr 02:00:00:00:00:02 inet 10.0.0.2
@0 neigh add 10.0.0.4 lladdr 00:11:22:33:44:55 nud stale
@0 neigh add 10.0.0.5 lladdr 00:11:22:33:44:55 nud stale
@0 neigh add 10.0.0.6 lladdr 00:11:22:33:44:55 nud stale
@0 neigh add 10.0.0.7 lladdr 00:11:22:33:44:55 nud stale
@0 neigh add 10.0.0.8 lladdr 00:11:22:33:44:55 nud stale
@0 neigh add 10.0.0.9 lladdr 00:11:22:33:44:55 nud permanent
@1 neigh flush
@1 neigh show
-- report
neigh 1 mode inline buckets 4 senders 1 window 50
host dev eth0 lladdr 02:00:00:00:00:02 inet 10.0.0.2
bucket 0 lines 4
0 0 32 add 10.0.0.4 00:11:22:33:44:55 stale -> done
  seen 0
1 0 160 add 10.0.0.8 00:11:22:33:44:55 stale -> done
  seen 4
2 1 224 flush -> counted 2
3 1 256 show -> counted 0
bucket 1 lines 4
0 0 64 add 10.0.0.5 00:11:22:33:44:55 stale -> done
  seen 1
1 0 192 add 10.0.0.9 00:11:22:33:44:55 permanent -> done
  seen 5
2 1 224 flush -> counted 1
3 1 256 show -> counted 1
  entry 10.0.0.9 dev eth0 lladdr 00:11:22:33:44:55 PERMANENT
bucket 2 lines 3
0 0 96 add 10.0.0.6 00:11:22:33:44:55 stale -> done
  seen 2
1 1 224 flush -> counted 1
2 1 256 show -> counted 0
bucket 3 lines 3
0 0 128 add 10.0.0.7 00:11:22:33:44:55 stale -> done
  seen 3
1 1 224 flush -> counted 1
2 1 256 show -> counted 0
host lines 8
1 0 neigh op 0 0 done
2 0 neigh op 1 0 done
3 0 neigh op 2 0 done
4 0 neigh op 3 0 done
5 0 neigh op 0 1 done
6 0 neigh op 1 1 done
7 1 neigh op 0 2 counted 2 op 1 2 counted 1 op 2 1 counted 1 op 3 1 counted 1
8 1 neigh op 0 3 counted 0 op 1 3 counted 1 op 2 2 counted 0 op 3 2 counted 0
sender 1 items 0
marks 0
fates sent 0 fast 0 dropped 0 waiting 0
table 1
10.0.0.9 dev eth0 lladdr 00:11:22:33:44:55 PERMANENT
proxies 0
end
== buckets_by_the_last_byte: --script s --buckets 64
host dev eth0 lladdr 02:00:00:00:00:02 inet 10.0.0.2 inet6 fe80::2
@0 neigh add 10.0.0.64 lladdr 00:11:22:33:44:55 nud permanent
@0 neigh add 10.0.0.63 lladdr 00:11:22:33:44:55 nud permanent
@0 neigh add 10.0.0.65 lladdr 00:11:22:33:44:55 nud permanent
@0 neigh add 10.0.0.255 lladdr 00:11:22:33:44:55 nud permanent
@0 neigh add 10.0.0.128 lladdr 00:11:22:33:44:55 nud permanent
@0 neigh add fe80::1:3f lladdr 00:11:22:33:44:55
@0 neigh add 2001:db8::1 lladdr 00:11:22:33:44:66
-- report
neigh 1 mode inline buckets 64 senders 1 window 50
host dev eth0 lladdr 02:00:00:00:00:02 inet 10.0.0.2 inet6 fe80::2
bucket 0 lines 2
0 0 32 add 10.0.0.64 00:11:22:33:44:55 permanent -> done
  seen 0
1 0 160 add 10.0.0.128 00:11:22:33:44:55 permanent -> done
  seen 4
bucket 1 lines 2
0 0 96 add 10.0.0.65 00:11:22:33:44:55 permanent -> done
  seen 2
1 0 224 add 2001:db8::1 00:11:22:33:44:66 permanent -> done
  seen 6
bucket 2 lines 0
bucket 3 lines 0
bucket 4 lines 0
bucket 5 lines 0
bucket 6 lines 0
bucket 7 lines 0
bucket 8 lines 0
bucket 9 lines 0
bucket 10 lines 0
bucket 11 lines 0
bucket 12 lines 0
bucket 13 lines 0
bucket 14 lines 0
bucket 15 lines 0
bucket 16 lines 0
bucket 17 lines 0
bucket 18 lines 0
bucket 19 lines 0
bucket 20 lines 0
bucket 21 lines 0
bucket 22 lines 0
bucket 23 lines 0
bucket 24 lines 0
bucket 25 lines 0
bucket 26 lines 0
bucket 27 lines 0
bucket 28 lines 0
bucket 29 lines 0
bucket 30 lines 0
bucket 31 lines 0
bucket 32 lines 0
bucket 33 lines 0
bucket 34 lines 0
bucket 35 lines 0
bucket 36 lines 0
bucket 37 lines 0
bucket 38 lines 0
bucket 39 lines 0
bucket 40 lines 0
bucket 41 lines 0
bucket 42 lines 0
bucket 43 lines 0
bucket 44 lines 0
bucket 45 lines 0
bucket 46 lines 0
bucket 47 lines 0
bucket 48 lines 0
bucket 49 lines 0
bucket 50 lines 0
bucket 51 lines 0
bucket 52 lines 0
bucket 53 lines 0
bucket 54 lines 0
bucket 55 lines 0
bucket 56 lines 0
bucket 57 lines 0
bucket 58 lines 0
bucket 59 lines 0
bucket 60 lines 0
bucket 61 lines 0
bucket 62 lines 0
bucket 63 lines 3
0 0 64 add 10.0.0.63 00:11:22:33:44:55 permanent -> done
  seen 1
1 0 128 add 10.0.0.255 00:11:22:33:44:55 permanent -> done
  seen 3
2 0 192 add fe80::1:3f 00:11:22:33:44:55 permanent -> done
  seen 5
host lines 7
1 0 neigh op 0 0 done
2 0 neigh op 63 0 done
3 0 neigh op 1 0 done
4 0 neigh op 63 1 done
5 0 neigh op 0 1 done
6 0 neigh op 63 2 done
7 0 neigh op 1 1 done
sender 1 items 0
marks 0
fates sent 0 fast 0 dropped 0 waiting 0
table 7
10.0.0.64 dev eth0 lladdr 00:11:22:33:44:55 PERMANENT
10.0.0.128 dev eth0 lladdr 00:11:22:33:44:55 PERMANENT
10.0.0.65 dev eth0 lladdr 00:11:22:33:44:55 PERMANENT
2001:db8::1 dev eth0 lladdr 00:11:22:33:44:66 PERMANENT
10.0.0.63 dev eth0 lladdr 00:11:22:33:44:55 PERMANENT
10.0.0.255 dev eth0 lladdr 00:11:22:33:44:55 PERMANENT
fe80::1:3f dev eth0 lladdr 00:11:22:33:44:55 PERMANENT
proxies 0
end
== timers_of_two_buckets: --script s --buckets 2
host dev eth0 lladdr 02:00:00:00:00:02 inet 10.0.0.2
@0 send 1 10.0.0.11 01
@0 send 1 10.0.0.12 02
@2500 confirm 10.0.0.12
-- report
neigh 1 mode inline buckets 2 senders 1 window 50
host dev eth0 lladdr 02:00:00:00:00:02 inet 10.0.0.2
bucket 0 lines 4
0 0 65 send 10.0.0.12 -> waits
  seen 1
  solicit ffffffffffff020000000002080600010800060400010200000000020a0000020000000000000a00000c
  wait 65
1 1000 - timer 10.0.0.12 -> -
  solicit ffffffffffff020000000002080600010800060400010200000000020a0000020000000000000a00000c
2 2000 - timer 10.0.0.12 -> -
  solicit ffffffffffff020000000002080600010800060400010200000000020a0000020000000000000a00000c
3 2500 32 confirm 10.0.0.12 -> ignored
bucket 1 lines 1
0 0 33 send 10.0.0.11 -> waits
  seen 0
  solicit ffffffffffff020000000002080600010800060400010200000000020a0000020000000000000a00000b
  wait 33
host lines 1
1 2500 neigh op 0 3 ignored
sender 1 items 2
1 0 inline 0 waits
2 0 inline 0 waits
marks 0
fates sent 0 fast 0 dropped 0 waiting 2
table 2
10.0.0.12 dev eth0 INCOMPLETE
10.0.0.11 dev eth0 INCOMPLETE
proxies 0
end
== senders_and_their_buckets: --script s --buckets 16
host dev eth0 lladdr 02:00:00:00:00:02 inet 10.0.0.2
senders 3
@0 send 3 10.0.0.11 0a
@0 send 1 10.0.0.12 0b
@0 send 2 10.0.0.15 0c
@1 neigh replace 10.0.0.11 lladdr 00:11:22:33:44:55 nud reachable
@1 send 1 10.0.0.11 0d
@1 send 2 10.0.0.12 0e
-- report
neigh 1 mode inline buckets 16 senders 3 window 50
host dev eth0 lladdr 02:00:00:00:00:02 inet 10.0.0.2
bucket 0 lines 0
bucket 1 lines 0
bucket 2 lines 0
bucket 3 lines 0
bucket 4 lines 0
bucket 5 lines 0
bucket 6 lines 0
bucket 7 lines 0
bucket 8 lines 0
bucket 9 lines 0
bucket 10 lines 0
bucket 11 lines 3
0 0 35 send 10.0.0.11 -> waits
  seen 2
  solicit ffffffffffff020000000002080600010800060400010200000000020a0000020000000000000a00000b
  wait 35
1 1 32 replace 10.0.0.11 00:11:22:33:44:55 reachable -> done
  tx 35 00112233445502000000000208000a
2 1 65 send 10.0.0.11 -> sent
  tx 65 00112233445502000000000208000d
bucket 12 lines 2
0 0 33 send 10.0.0.12 -> waits
  seen 0
  solicit ffffffffffff020000000002080600010800060400010200000000020a0000020000000000000a00000c
  wait 33
1 1 66 send 10.0.0.12 -> waits
  wait 66
bucket 13 lines 0
bucket 14 lines 0
bucket 15 lines 1
0 0 34 send 10.0.0.15 -> waits
  seen 1
  solicit ffffffffffff020000000002080600010800060400010200000000020a0000020000000000000a00000f
  wait 34
host lines 1
1 1 neigh op 11 1 done
sender 1 items 2
1 0 inline 0 waits
2 1 inline 2 sent
sender 2 items 2
1 0 inline 0 waits
2 1 inline 1 waits
sender 3 items 1
1 0 inline 0 waits
marks 0
fates sent 2 fast 0 dropped 0 waiting 3
table 3
10.0.0.11 dev eth0 lladdr 00:11:22:33:44:55 REACHABLE
10.0.0.12 dev eth0 INCOMPLETE
10.0.0.15 dev eth0 INCOMPLETE
proxies 0
end
== heard_in_their_buckets: --script s --capture c --buckets 32
host dev eth0 lladdr 02:00:00:00:00:02 inet 10.0.0.2
param gc_thresh3 2
@0 neigh add 10.0.0.12 lladdr 00:11:22:33:44:55 nud stale
-- records
0 ffffffffffff001122334455080600010800060400010011223344550a0000070000000000000a000002
0 ffffffffffff001122334466080600010800060400010011223344660a0000080000000000000a000002
1 020000000002001122334466080600010800060400020011223344660a00000c0200000000020a000002
2 020000000002001122334466080600010800060400020011223344660a0000090200000000020a000002
1001 020000000002001122334466080600010800060400020011223344660a00000c0200000000020a000002
-- report
neigh 1 mode inline buckets 32 senders 1 window 50
host dev eth0 lladdr 02:00:00:00:00:02 inet 10.0.0.2
bucket 0 lines 0
bucket 1 lines 0
bucket 2 lines 0
bucket 3 lines 0
bucket 4 lines 0
bucket 5 lines 0
bucket 6 lines 0
bucket 7 lines 1
0 0 64 arp 10.0.0.7 00:11:22:33:44:55 make stale -> done
  seen 1
bucket 8 lines 1
0 0 96 arp 10.0.0.8 00:11:22:33:44:66 make stale -> full 2
  seen 2
bucket 9 lines 1
0 2 160 arp 10.0.0.9 00:11:22:33:44:66 keep reachable -> ignored
bucket 10 lines 0
bucket 11 lines 0
bucket 12 lines 3
0 0 32 add 10.0.0.12 00:11:22:33:44:55 stale -> done
  seen 0
1 1 128 arp 10.0.0.12 00:11:22:33:44:66 keep reachable -> done
2 1001 192 arp 10.0.0.12 00:11:22:33:44:66 keep reachable -> done
bucket 13 lines 0
bucket 14 lines 0
bucket 15 lines 0
bucket 16 lines 0
bucket 17 lines 0
bucket 18 lines 0
bucket 19 lines 0
bucket 20 lines 0
bucket 21 lines 0
bucket 22 lines 0
bucket 23 lines 0
bucket 24 lines 0
bucket 25 lines 0
bucket 26 lines 0
bucket 27 lines 0
bucket 28 lines 0
bucket 29 lines 0
bucket 30 lines 0
bucket 31 lines 0
host lines 6
1 0 neigh op 12 0 done
2 0 frame arp tx 001122334455020000000002080600010800060400020200000000020a0000020011223344550a000007 op 7 0 done
3 0 frame arp tx 001122334466020000000002080600010800060400020200000000020a0000020011223344660a000008 op 8 0 full 2
4 1 frame arp op 12 1 done
5 2 frame arp op 9 0 ignored
6 1001 frame arp op 12 2 done
sender 1 items 0
marks 0
fates sent 0 fast 0 dropped 0 waiting 0
table 2
10.0.0.7 dev eth0 lladdr 00:11:22:33:44:55 STALE
10.0.0.12 dev eth0 lladdr 00:11:22:33:44:66 REACHABLE
proxies 0
end
== discovery_and_proxies_over_two_buckets: --script s --capture c --buckets 2
host dev eth0 lladdr 02:00:00:00:00:02 inet 10.0.0.2 inet6 fe80::2
param proxy_delay 10
@0 neigh add proxy fe80::9
@0 send 1 fe80::1 01
@0 send 1 fe80::4 02
@20 neigh show
-- records
0 3333ff00000900112233445586dd6000000000203afffe800000000000000000000000000001ff0200000000000000000001ff000009870015f100000000fe8000000000000000000000000000090101001122334455
1 3333ff00000200112233447786dd6000000000203afffe800000000000000000000000000004ff0200000000000000000001ff000002870015da00000000fe8000000000000000000000000000020101001122334477
2 02000000000200112233445586dd6000000000203afffe800000000000000000000000000001fe80000000000000000000000000000288003383e0000000fe8000000000000000000000000000010201001122334455
-- report
neigh 1 mode inline buckets 2 senders 1 window 50
host dev eth0 lladdr 02:00:00:00:00:02 inet 10.0.0.2 inet6 fe80::2
bucket 0 lines 3
0 0 65 send fe80::4 -> waits
  seen 1
  solicit 3333ff00000402000000000286dd6000000000203afffe800000000000000000000000000002ff0200000000000000000001ff00000487007a9100000000fe8000000000000000000000000000040101020000000002
  wait 65
1 1 96 ns fe80::4 00:11:22:33:44:77 -> done
  tx 65 00112233447702000000000286dd02
2 20 160 show -> counted 1
  entry fe80::4 dev eth0 lladdr 00:11:22:33:44:77 STALE
bucket 1 lines 3
0 0 33 send fe80::1 -> waits
  seen 0
  solicit 3333ff00000102000000000286dd6000000000203afffe800000000000000000000000000002ff0200000000000000000001ff00000187007a9700000000fe8000000000000000000000000000010101020000000002
  wait 33
1 2 128 na fe80::1 00:11:22:33:44:55 rso -> done
  tx 33 00112233445502000000000286dd01
2 20 160 show -> counted 1
  entry fe80::1 dev eth0 lladdr 00:11:22:33:44:55 router REACHABLE
host lines 6
1 0 proxy done
2 0 frame nd proxied
3 1 frame nd tx 00112233447702000000000286dd6000000000203afffe800000000000000000000000000002fe8000000000000000000000000000048800181760000000fe8000000000000000000000000000020201020000000002 op 0 1 done
4 2 frame nd op 1 1 done
- 10 answer 00112233445502000000000286dd6000000000203afffe800000000000000000000000000002fe8000000000000000000000000000018800381340000000fe8000000000000000000000000000090201020000000002
5 20 neigh op 0 2 counted 1 op 1 2 counted 1
sender 1 items 2
1 0 inline 0 waits
2 0 inline 0 waits
marks 0
fates sent 2 fast 0 dropped 0 waiting 0
table 2
fe80::4 dev eth0 lladdr 00:11:22:33:44:77 STALE
fe80::1 dev eth0 lladdr 00:11:22:33:44:55 router REACHABLE
proxies 1
fe80::9 dev eth0 proxy
end
";
