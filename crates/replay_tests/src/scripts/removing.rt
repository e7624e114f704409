//! Scripts of removal by hand. The table is cut as `scripts.rt` says.

pub fn table() -> &'static str {
    TABLE
}

const TABLE: &str = "\
== del_of_an_incomplete_entry_drops_its_packets: senders 1
@0 send 1 10.0.0.1 01
@0 send 1 10.0.0.1 02
@500 neigh del 10.0.0.1 dev eth0
@500 neigh del 10.0.0.1
@1500 neigh show
-- report
bucket 0 lines 5
0 0 33 send 10.0.0.1 -> waits
  solicit ffffffffffff020000000002080600010800060400010200000000020a0000020000000000000a000001
  wait 33
1 0 65 send 10.0.0.1 -> waits
  wait 65
2 500 32 del 10.0.0.1 -> done
  drop 33 removed
  drop 65 removed
3 500 64 del 10.0.0.1 -> missing
4 1500 96 show -> counted 0
host lines 3
1 500 neigh op 0 2 done
2 500 neigh op 0 3 missing
3 1500 neigh op 0 4 counted 0
sender 1 items 2
1 0 inline 0 waits
2 0 inline 1 waits
marks 0
fates sent 0 fast 0 dropped 2 waiting 0
table 0
proxies 0
end
== removed_entry_begins_anew: senders 1
@0 send 1 10.0.0.1 01
@2500 neigh del 10.0.0.1
@2600 send 1 10.0.0.1 02
@5600 neigh show
-- report
bucket 0 lines 9
0 0 33 send 10.0.0.1 -> waits
  solicit ffffffffffff020000000002080600010800060400010200000000020a0000020000000000000a000001
  wait 33
1 1000 - timer 10.0.0.1 -> -
  solicit ffffffffffff020000000002080600010800060400010200000000020a0000020000000000000a000001
2 2000 - timer 10.0.0.1 -> -
  solicit ffffffffffff020000000002080600010800060400010200000000020a0000020000000000000a000001
3 2500 32 del 10.0.0.1 -> done
  drop 33 removed
4 2600 65 send 10.0.0.1 -> waits
  solicit ffffffffffff020000000002080600010800060400010200000000020a0000020000000000000a000001
  wait 65
5 3600 - timer 10.0.0.1 -> -
  solicit ffffffffffff020000000002080600010800060400010200000000020a0000020000000000000a000001
6 4600 - timer 10.0.0.1 -> -
  solicit ffffffffffff020000000002080600010800060400010200000000020a0000020000000000000a000001
7 5600 - timer 10.0.0.1 -> -
  drop 65 unresolved
8 5600 64 show -> counted 1
  entry 10.0.0.1 dev eth0 FAILED
host lines 2
1 2500 neigh op 0 3 done
2 5600 neigh op 0 8 counted 1
sender 1 items 2
1 0 inline 0 waits
2 2600 inline 4 waits
marks 0
fates sent 0 fast 0 dropped 2 waiting 0
table 1
10.0.0.1 dev eth0 FAILED
proxies 0
end
== del_of_noarp_reachable_and_failed: senders 1
param mcast_solicit 0
@0 neigh add 10.0.0.1 lladdr 00:11:22:33:44:55 nud noarp
@0 neigh add 10.0.0.4 lladdr 00:11:22:33:44:77 nud reachable
@0 send 1 10.0.0.5 01
@1 neigh del 10.0.0.1
@1 neigh del 10.0.0.4
@1 neigh del 10.0.0.5
@40000 neigh show
-- report
bucket 0 lines 8
0 0 32 add 10.0.0.1 00:11:22:33:44:55 noarp -> done
1 0 64 add 10.0.0.4 00:11:22:33:44:77 reachable -> done
2 0 33 send 10.0.0.5 -> noprobes
  drop 33 noprobes
3 1 96 del 10.0.0.1 -> done
4 1 128 del 10.0.0.4 -> done
5 1 160 del 10.0.0.5 -> done
6 30000 - sweep -> -
7 40000 192 show -> counted 0
host lines 6
1 0 neigh op 0 0 done
2 0 neigh op 0 1 done
3 1 neigh op 0 3 done
4 1 neigh op 0 4 done
5 1 neigh op 0 5 done
6 40000 neigh op 0 7 counted 0
sender 1 items 1
1 0 inline 2 noprobes
marks 0
fates sent 0 fast 0 dropped 1 waiting 0
table 0
proxies 0
end
== del_in_delay_and_probe_ends_their_timers: senders 1
@0 neigh add 10.0.0.1 lladdr 00:11:22:33:44:55 nud stale
@0 neigh add 10.0.0.3 lladdr 00:11:22:33:44:66 nud stale
@0 send 1 10.0.0.1 01
@2000 send 1 10.0.0.3 02
@5500 neigh del 10.0.0.1
@5500 neigh del 10.0.0.3
@9000 neigh show
-- report
bucket 0 lines 8
0 0 32 add 10.0.0.1 00:11:22:33:44:55 stale -> done
1 0 64 add 10.0.0.3 00:11:22:33:44:66 stale -> done
2 0 33 send 10.0.0.1 -> sent
  tx 33 001122334455020000000002080001
3 2000 65 send 10.0.0.3 -> sent
  tx 65 001122334466020000000002080002
4 5000 - timer 10.0.0.1 -> -
  solicit 001122334455020000000002080600010800060400010200000000020a0000020000000000000a000001
5 5500 96 del 10.0.0.1 -> done
6 5500 128 del 10.0.0.3 -> done
7 9000 160 show -> counted 0
host lines 5
1 0 neigh op 0 0 done
2 0 neigh op 0 1 done
3 5500 neigh op 0 5 done
4 5500 neigh op 0 6 done
5 9000 neigh op 0 7 counted 0
sender 1 items 2
1 0 inline 2 sent
2 2000 inline 3 sent
marks 0
fates sent 2 fast 0 dropped 0 waiting 0
table 0
proxies 0
end
== rank_stays_behind_a_removal: senders 1
@0 send 1 10.0.0.7 01
@0 send 1 10.0.0.5 02
@10 neigh del 10.0.0.5
@10 neigh del 10.0.0.7
@20 send 1 10.0.0.5 03
@20 send 1 10.0.0.7 04
@1020 neigh show
@1030 neigh flush
-- report
bucket 0 lines 10
0 0 33 send 10.0.0.7 -> waits
  solicit ffffffffffff020000000002080600010800060400010200000000020a0000020000000000000a000007
  wait 33
1 0 65 send 10.0.0.5 -> waits
  solicit ffffffffffff020000000002080600010800060400010200000000020a0000020000000000000a000005
  wait 65
2 10 32 del 10.0.0.5 -> done
  drop 65 removed
3 10 64 del 10.0.0.7 -> done
  drop 33 removed
4 20 97 send 10.0.0.5 -> waits
  solicit ffffffffffff020000000002080600010800060400010200000000020a0000020000000000000a000005
  wait 97
5 20 129 send 10.0.0.7 -> waits
  solicit ffffffffffff020000000002080600010800060400010200000000020a0000020000000000000a000007
  wait 129
6 1020 - timer 10.0.0.7 -> -
  solicit ffffffffffff020000000002080600010800060400010200000000020a0000020000000000000a000007
7 1020 - timer 10.0.0.5 -> -
  solicit ffffffffffff020000000002080600010800060400010200000000020a0000020000000000000a000005
8 1020 96 show -> counted 2
  entry 10.0.0.7 dev eth0 INCOMPLETE
  entry 10.0.0.5 dev eth0 INCOMPLETE
9 1030 128 flush -> counted 2
  drop 129 removed
  drop 97 removed
host lines 4
1 10 neigh op 0 2 done
2 10 neigh op 0 3 done
3 1020 neigh op 0 8 counted 2
4 1030 neigh op 0 9 counted 2
sender 1 items 4
1 0 inline 0 waits
2 0 inline 1 waits
3 20 inline 4 waits
4 20 inline 5 waits
marks 0
fates sent 0 fast 0 dropped 4 waiting 0
table 0
proxies 0
end
== flush_spares_permanent: senders 1
@0 neigh add 10.0.0.1 lladdr 00:11:22:33:44:55
@0 neigh add 10.0.0.3 lladdr 00:11:22:33:44:66 nud stale
@1 neigh flush
-- report
bucket 0 lines 3
0 0 32 add 10.0.0.1 00:11:22:33:44:55 permanent -> done
1 0 64 add 10.0.0.3 00:11:22:33:44:66 stale -> done
2 1 96 flush -> counted 1
host lines 3
1 0 neigh op 0 0 done
2 0 neigh op 0 1 done
3 1 neigh op 0 2 counted 1
sender 1 items 0
marks 0
fates sent 0 fast 0 dropped 0 waiting 0
table 1
10.0.0.1 dev eth0 lladdr 00:11:22:33:44:55 PERMANENT
proxies 0
end
== flush_drops_what_waits_by_rank: senders 1
@0 neigh add 10.0.0.1 lladdr 00:11:22:33:44:55
@0 neigh add 10.0.0.3 lladdr 00:11:22:33:44:66 nud noarp
@0 neigh add 10.0.0.4 lladdr 00:11:22:33:44:77 nud stale
@0 neigh add 10.0.0.5 lladdr 00:11:22:33:44:55 nud reachable
@0 send 1 10.0.0.7 01
@0 send 1 10.0.0.6 02
@0 send 1 10.0.0.7 03
@1 neigh flush all dev eth0
@2 neigh show
-- report
bucket 0 lines 9
0 0 32 add 10.0.0.1 00:11:22:33:44:55 permanent -> done
1 0 64 add 10.0.0.3 00:11:22:33:44:66 noarp -> done
2 0 96 add 10.0.0.4 00:11:22:33:44:77 stale -> done
3 0 128 add 10.0.0.5 00:11:22:33:44:55 reachable -> done
4 0 33 send 10.0.0.7 -> waits
  solicit ffffffffffff020000000002080600010800060400010200000000020a0000020000000000000a000007
  wait 33
5 0 65 send 10.0.0.6 -> waits
  solicit ffffffffffff020000000002080600010800060400010200000000020a0000020000000000000a000006
  wait 65
6 0 97 send 10.0.0.7 -> waits
  wait 97
7 1 160 flush -> counted 4
  drop 33 removed
  drop 97 removed
  drop 65 removed
8 2 192 show -> counted 2
  entry 10.0.0.1 dev eth0 lladdr 00:11:22:33:44:55 PERMANENT
  entry 10.0.0.3 dev eth0 lladdr 00:11:22:33:44:66 NOARP
host lines 6
1 0 neigh op 0 0 done
2 0 neigh op 0 1 done
3 0 neigh op 0 2 done
4 0 neigh op 0 3 done
5 1 neigh op 0 7 counted 4
6 2 neigh op 0 8 counted 2
sender 1 items 3
1 0 inline 4 waits
2 0 inline 5 waits
3 0 inline 6 waits
marks 0
fates sent 0 fast 0 dropped 3 waiting 0
table 2
10.0.0.1 dev eth0 lladdr 00:11:22:33:44:55 PERMANENT
10.0.0.3 dev eth0 lladdr 00:11:22:33:44:66 NOARP
proxies 0
end
== flush_takes_delay_probe_and_failed: senders 1
param mcast_solicit 0
@0 neigh add 10.0.0.1 lladdr 00:11:22:33:44:55 nud stale
@0 neigh add 10.0.0.3 lladdr 00:11:22:33:44:66 nud stale
@0 send 1 10.0.0.1 01
@3000 send 1 10.0.0.3 02
@5500 send 1 10.0.0.4 03
@5501 neigh flush
@5502 neigh flush
@9000 neigh show
-- report
bucket 0 lines 9
0 0 32 add 10.0.0.1 00:11:22:33:44:55 stale -> done
1 0 64 add 10.0.0.3 00:11:22:33:44:66 stale -> done
2 0 33 send 10.0.0.1 -> sent
  tx 33 001122334455020000000002080001
3 3000 65 send 10.0.0.3 -> sent
  tx 65 001122334466020000000002080002
4 5000 - timer 10.0.0.1 -> -
  solicit 001122334455020000000002080600010800060400010200000000020a0000020000000000000a000001
5 5500 97 send 10.0.0.4 -> noprobes
  drop 97 noprobes
6 5501 96 flush -> counted 3
7 5502 128 flush -> counted 0
8 9000 160 show -> counted 0
host lines 5
1 0 neigh op 0 0 done
2 0 neigh op 0 1 done
3 5501 neigh op 0 6 counted 3
4 5502 neigh op 0 7 counted 0
5 9000 neigh op 0 8 counted 0
sender 1 items 3
1 0 inline 2 sent
2 3000 inline 3 sent
3 5500 inline 5 noprobes
marks 0
fates sent 2 fast 0 dropped 1 waiting 0
table 0
proxies 0
end
";
