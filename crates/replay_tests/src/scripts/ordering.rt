//! Scripts of the order of keys, of looks and of several senders. The table is cut as `scripts.rt` says.

pub fn table() -> &'static str {
    TABLE
}

const TABLE: &str = "\
== ties_go_by_rank: senders 1
@0 send 1 10.0.0.7 01
@0 send 1 10.0.0.5 02
@1000 neigh show
-- report
bucket 0 lines 5
0 0 33 send 10.0.0.7 -> waits
  solicit ffffffffffff020000000002080600010800060400010200000000020a0000020000000000000a000007
  wait 33
1 0 65 send 10.0.0.5 -> waits
  solicit ffffffffffff020000000002080600010800060400010200000000020a0000020000000000000a000005
  wait 65
2 1000 - timer 10.0.0.7 -> -
  solicit ffffffffffff020000000002080600010800060400010200000000020a0000020000000000000a000007
3 1000 - timer 10.0.0.5 -> -
  solicit ffffffffffff020000000002080600010800060400010200000000020a0000020000000000000a000005
4 1000 32 show -> counted 2
  entry 10.0.0.7 dev eth0 INCOMPLETE
  entry 10.0.0.5 dev eth0 INCOMPLETE
host lines 1
1 1000 neigh op 0 4 counted 2
sender 1 items 2
1 0 inline 0 waits
2 0 inline 1 waits
marks 0
fates sent 0 fast 0 dropped 0 waiting 2
table 2
10.0.0.7 dev eth0 INCOMPLETE
10.0.0.5 dev eth0 INCOMPLETE
proxies 0
end
== ties_go_by_rank_not_by_arming: senders 1
param delay_first_probe_time 1000
@0 neigh add 10.0.0.9 lladdr 00:11:22:33:44:55 nud stale
@0 send 1 10.0.0.7 01
@0 send 1 10.0.0.9 02
@1000 neigh show
-- report
bucket 0 lines 6
0 0 32 add 10.0.0.9 00:11:22:33:44:55 stale -> done
1 0 33 send 10.0.0.7 -> waits
  solicit ffffffffffff020000000002080600010800060400010200000000020a0000020000000000000a000007
  wait 33
2 0 65 send 10.0.0.9 -> sent
  tx 65 001122334455020000000002080002
3 1000 - timer 10.0.0.9 -> -
  solicit 001122334455020000000002080600010800060400010200000000020a0000020000000000000a000009
4 1000 - timer 10.0.0.7 -> -
  solicit ffffffffffff020000000002080600010800060400010200000000020a0000020000000000000a000007
5 1000 64 show -> counted 2
  entry 10.0.0.9 dev eth0 lladdr 00:11:22:33:44:55 PROBE
  entry 10.0.0.7 dev eth0 INCOMPLETE
host lines 2
1 0 neigh op 0 0 done
2 1000 neigh op 0 5 counted 2
sender 1 items 2
1 0 inline 1 waits
2 0 inline 2 sent
marks 0
fates sent 1 fast 0 dropped 0 waiting 1
table 2
10.0.0.9 dev eth0 lladdr 00:11:22:33:44:55 PROBE
10.0.0.7 dev eth0 INCOMPLETE
proxies 0
end
== looks_at_an_empty_table: senders 1
@0 neigh show
@0 neigh flush
@5 neigh show dev eth0
-- report
bucket 0 lines 3
0 0 32 show -> counted 0
1 0 64 flush -> counted 0
2 5 96 show -> counted 0
host lines 3
1 0 neigh op 0 0 counted 0
2 0 neigh op 0 1 counted 0
3 5 neigh op 0 2 counted 0
sender 1 items 0
marks 0
fates sent 0 fast 0 dropped 0 waiting 0
table 0
proxies 0
end
== one_look_at_six_states: senders 1
@0 neigh add 10.0.0.4 lladdr 00:11:22:33:44:77 nud stale
@0 neigh add 10.0.0.5 lladdr 00:11:22:33:44:55 nud stale
@0 neigh add 10.0.0.8 lladdr 00:11:22:33:44:66 nud reachable
@0 neigh add 10.0.0.9 lladdr 00:11:22:33:44:55 nud stale
@0 send 1 10.0.0.5 01
@0 send 1 10.0.0.6 02
@4000 send 1 10.0.0.4 03
@5100 send 1 10.0.0.7 04
@5200 neigh show
-- report
bucket 0 lines 13
0 0 32 add 10.0.0.4 00:11:22:33:44:77 stale -> done
1 0 64 add 10.0.0.5 00:11:22:33:44:55 stale -> done
2 0 96 add 10.0.0.8 00:11:22:33:44:66 reachable -> done
3 0 128 add 10.0.0.9 00:11:22:33:44:55 stale -> done
4 0 33 send 10.0.0.5 -> sent
  tx 33 001122334455020000000002080001
5 0 65 send 10.0.0.6 -> waits
  solicit ffffffffffff020000000002080600010800060400010200000000020a0000020000000000000a000006
  wait 65
6 1000 - timer 10.0.0.6 -> -
  solicit ffffffffffff020000000002080600010800060400010200000000020a0000020000000000000a000006
7 2000 - timer 10.0.0.6 -> -
  solicit ffffffffffff020000000002080600010800060400010200000000020a0000020000000000000a000006
8 3000 - timer 10.0.0.6 -> -
  drop 65 unresolved
9 4000 97 send 10.0.0.4 -> sent
  tx 97 001122334477020000000002080003
10 5000 - timer 10.0.0.5 -> -
  solicit 001122334455020000000002080600010800060400010200000000020a0000020000000000000a000005
11 5100 129 send 10.0.0.7 -> waits
  solicit ffffffffffff020000000002080600010800060400010200000000020a0000020000000000000a000007
  wait 129
12 5200 160 show -> counted 6
  entry 10.0.0.4 dev eth0 lladdr 00:11:22:33:44:77 DELAY
  entry 10.0.0.5 dev eth0 lladdr 00:11:22:33:44:55 PROBE
  entry 10.0.0.8 dev eth0 lladdr 00:11:22:33:44:66 REACHABLE
  entry 10.0.0.9 dev eth0 lladdr 00:11:22:33:44:55 STALE
  entry 10.0.0.6 dev eth0 FAILED
  entry 10.0.0.7 dev eth0 INCOMPLETE
host lines 5
1 0 neigh op 0 0 done
2 0 neigh op 0 1 done
3 0 neigh op 0 2 done
4 0 neigh op 0 3 done
5 5200 neigh op 0 12 counted 6
sender 1 items 4
1 0 inline 4 sent
2 0 inline 5 waits
3 4000 inline 9 sent
4 5100 inline 11 waits
marks 0
fates sent 2 fast 0 dropped 1 waiting 1
table 6
10.0.0.4 dev eth0 lladdr 00:11:22:33:44:77 DELAY
10.0.0.5 dev eth0 lladdr 00:11:22:33:44:55 PROBE
10.0.0.8 dev eth0 lladdr 00:11:22:33:44:66 REACHABLE
10.0.0.9 dev eth0 lladdr 00:11:22:33:44:55 STALE
10.0.0.6 dev eth0 FAILED
10.0.0.7 dev eth0 INCOMPLETE
proxies 0
end
== senders_go_by_number_at_equal_moments: senders 3
senders 3
@5 send 3 10.0.0.1 03
@5 send 1 10.0.0.1 01
@5 send 2 10.0.0.1 02
@5 send 1 10.0.0.1 04
@5 neigh add 10.0.0.1 lladdr 00:11:22:33:44:55 nud stale
-- report
bucket 0 lines 5
0 5 32 add 10.0.0.1 00:11:22:33:44:55 stale -> done
1 5 33 send 10.0.0.1 -> sent
  tx 33 001122334455020000000002080001
2 5 65 send 10.0.0.1 -> sent
  tx 65 001122334455020000000002080004
3 5 34 send 10.0.0.1 -> sent
  tx 34 001122334455020000000002080002
4 5 35 send 10.0.0.1 -> sent
  tx 35 001122334455020000000002080003
host lines 1
1 5 neigh op 0 0 done
sender 1 items 2
1 5 inline 1 sent
2 5 inline 2 sent
sender 2 items 1
1 5 inline 3 sent
sender 3 items 1
1 5 inline 4 sent
marks 0
fates sent 4 fast 0 dropped 0 waiting 0
table 1
10.0.0.1 dev eth0 lladdr 00:11:22:33:44:55 DELAY
proxies 0
end
== sixteen_senders_and_room_for_two: senders 16
senders 16
param unres_qlen_bytes 514
@0 send 16 10.0.0.1 10
@0 send 2 10.0.0.1 02
@0 send 9 10.0.0.1 09
@1 neigh show
@1000 send 9 10.0.0.1 0a
-- report
bucket 0 lines 6
0 0 34 send 10.0.0.1 -> waits
  solicit ffffffffffff020000000002080600010800060400010200000000020a0000020000000000000a000001
  wait 34
1 0 41 send 10.0.0.1 -> waits
  wait 41
2 0 48 send 10.0.0.1 -> waits dropping 1
  drop 34 queuefull
  wait 48
3 1 32 show -> counted 1
  entry 10.0.0.1 dev eth0 INCOMPLETE
4 1000 - timer 10.0.0.1 -> -
  solicit ffffffffffff020000000002080600010800060400010200000000020a0000020000000000000a000001
5 1000 73 send 10.0.0.1 -> waits dropping 1
  drop 41 queuefull
  wait 73
host lines 1
1 1 neigh op 0 3 counted 1
sender 1 items 0
sender 2 items 1
1 0 inline 0 waits
sender 3 items 0
sender 4 items 0
sender 5 items 0
sender 6 items 0
sender 7 items 0
sender 8 items 0
sender 9 items 2
1 0 inline 1 waits
2 1000 inline 5 waits dropping 1
sender 10 items 0
sender 11 items 0
sender 12 items 0
sender 13 items 0
sender 14 items 0
sender 15 items 0
sender 16 items 1
1 0 inline 2 waits dropping 1
marks 0
fates sent 0 fast 0 dropped 2 waiting 2
table 1
10.0.0.1 dev eth0 INCOMPLETE
proxies 0
end
== flush_before_the_sends_of_its_moment: senders 2
senders 2
@0 send 2 10.0.0.1 01
@5 send 1 10.0.0.1 02
@5 send 2 10.0.0.3 03
@5 neigh flush
@5 neigh show
-- report
bucket 0 lines 5
0 0 34 send 10.0.0.1 -> waits
  solicit ffffffffffff020000000002080600010800060400010200000000020a0000020000000000000a000001
  wait 34
1 5 32 flush -> counted 1
  drop 34 removed
2 5 64 show -> counted 0
3 5 33 send 10.0.0.1 -> waits
  solicit ffffffffffff020000000002080600010800060400010200000000020a0000020000000000000a000001
  wait 33
4 5 66 send 10.0.0.3 -> waits
  solicit ffffffffffff020000000002080600010800060400010200000000020a0000020000000000000a000003
  wait 66
host lines 2
1 5 neigh op 0 1 counted 1
2 5 neigh op 0 2 counted 0
sender 1 items 1
1 5 inline 3 waits
sender 2 items 2
1 0 inline 0 waits
2 5 inline 4 waits
marks 0
fates sent 0 fast 0 dropped 1 waiting 2
table 2
10.0.0.1 dev eth0 INCOMPLETE
10.0.0.3 dev eth0 INCOMPLETE
proxies 0
end
== packets_of_two_senders_drop_in_queue_order: senders 2
senders 2
param retrans_time 100
@0 send 2 10.0.0.1 01
@1 send 1 10.0.0.1 02
@1 send 2 10.0.0.1 03
@300 neigh show
-- report
bucket 0 lines 7
0 0 34 send 10.0.0.1 -> waits
  solicit ffffffffffff020000000002080600010800060400010200000000020a0000020000000000000a000001
  wait 34
1 1 33 send 10.0.0.1 -> waits
  wait 33
2 1 66 send 10.0.0.1 -> waits
  wait 66
3 100 - timer 10.0.0.1 -> -
  solicit ffffffffffff020000000002080600010800060400010200000000020a0000020000000000000a000001
4 200 - timer 10.0.0.1 -> -
  solicit ffffffffffff020000000002080600010800060400010200000000020a0000020000000000000a000001
5 300 - timer 10.0.0.1 -> -
  drop 34 unresolved
  drop 33 unresolved
  drop 66 unresolved
6 300 32 show -> counted 1
  entry 10.0.0.1 dev eth0 FAILED
host lines 1
1 300 neigh op 0 6 counted 1
sender 1 items 1
1 1 inline 1 waits
sender 2 items 2
1 0 inline 0 waits
2 1 inline 2 waits
marks 0
fates sent 0 fast 0 dropped 3 waiting 0
table 1
10.0.0.1 dev eth0 FAILED
proxies 0
end
== later_senders_line_counts: senders 2
senders 1
senders 2
@3 neigh add 10.0.0.1 lladdr 00:11:22:33:44:55 nud reachable
@3 send 2 10.0.0.1 0102030405
@4 send 2 10.0.0.1 06
@4 send 1 10.0.0.1 07
-- report
bucket 0 lines 4
0 3 32 add 10.0.0.1 00:11:22:33:44:55 reachable -> done
1 3 34 send 10.0.0.1 -> sent
  tx 34 00112233445502000000000208000102030405
2 4 33 send 10.0.0.1 -> sent
  tx 33 001122334455020000000002080007
3 4 66 send 10.0.0.1 -> sent
  tx 66 001122334455020000000002080006
host lines 1
1 3 neigh op 0 0 done
sender 1 items 1
1 4 inline 2 sent
sender 2 items 2
1 3 inline 1 sent
2 4 inline 3 sent
marks 0
fates sent 3 fast 0 dropped 0 waiting 0
table 1
10.0.0.1 dev eth0 lladdr 00:11:22:33:44:55 REACHABLE
proxies 0
end
";
