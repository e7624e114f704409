//! Scripts of confirmations. The table is cut as `scripts.rt` says.

pub fn table() -> &'static str {
    TABLE
}

const TABLE: &str = "\
== confirm_prolongs_reachable: senders 1
@0 neigh add 10.0.0.1 lladdr 00:11:22:33:44:55 nud reachable
@20000 confirm 10.0.0.1
@50009 neigh show
@50010 neigh show
-- report
bucket 0 lines 8
0 0 32 add 10.0.0.1 00:11:22:33:44:55 reachable -> done
1 20000 64 confirm 10.0.0.1 -> done
2 30000 - timer 10.0.0.1 -> -
3 30000 - sweep -> -
4 50000 - timer 10.0.0.1 -> -
5 50009 96 show -> counted 1
  entry 10.0.0.1 dev eth0 lladdr 00:11:22:33:44:55 REACHABLE
6 50010 - timer 10.0.0.1 -> -
7 50010 128 show -> counted 1
  entry 10.0.0.1 dev eth0 lladdr 00:11:22:33:44:55 STALE
host lines 4
1 0 neigh op 0 0 done
2 20000 neigh op 0 1 done
3 50009 neigh op 0 5 counted 1
4 50010 neigh op 0 7 counted 1
sender 1 items 0
marks 0
fates sent 0 fast 0 dropped 0 waiting 0
table 1
10.0.0.1 dev eth0 lladdr 00:11:22:33:44:55 STALE
proxies 0
end
== confirm_between_the_two_last_timers: senders 1
@0 neigh add 10.0.0.1 lladdr 00:11:22:33:44:55 nud reachable
@0 neigh add 10.0.0.3 lladdr 00:11:22:33:44:66 nud reachable
@30000 confirm 10.0.0.3
@30010 confirm 10.0.0.1
@60000 neigh show
-- report
bucket 0 lines 12
0 0 32 add 10.0.0.1 00:11:22:33:44:55 reachable -> done
1 0 64 add 10.0.0.3 00:11:22:33:44:66 reachable -> done
2 30000 - timer 10.0.0.1 -> -
3 30000 - timer 10.0.0.3 -> -
4 30000 - sweep -> -
5 30000 96 confirm 10.0.0.3 -> done
6 30010 - timer 10.0.0.1 -> -
7 30010 - timer 10.0.0.3 -> -
8 30010 128 confirm 10.0.0.1 -> done
9 60000 - timer 10.0.0.3 -> -
10 60000 - sweep -> -
11 60000 160 show -> counted 2
  entry 10.0.0.1 dev eth0 lladdr 00:11:22:33:44:55 STALE
  entry 10.0.0.3 dev eth0 lladdr 00:11:22:33:44:66 REACHABLE
host lines 5
1 0 neigh op 0 0 done
2 0 neigh op 0 1 done
3 30000 neigh op 0 5 done
4 30010 neigh op 0 8 done
5 60000 neigh op 0 11 counted 2
sender 1 items 0
marks 0
fates sent 0 fast 0 dropped 0 waiting 0
table 2
10.0.0.1 dev eth0 lladdr 00:11:22:33:44:55 STALE
10.0.0.3 dev eth0 lladdr 00:11:22:33:44:66 REACHABLE
proxies 0
end
== confirm_in_delay: senders 1
@0 neigh add 10.0.0.1 lladdr 00:11:22:33:44:55 nud stale
@0 send 1 10.0.0.1 01
@4000 confirm 10.0.0.1
@6000 neigh show
-- report
bucket 0 lines 5
0 0 32 add 10.0.0.1 00:11:22:33:44:55 stale -> done
1 0 33 send 10.0.0.1 -> sent
  tx 33 001122334455020000000002080001
2 4000 64 confirm 10.0.0.1 -> done
3 5000 - timer 10.0.0.1 -> -
4 6000 96 show -> counted 1
  entry 10.0.0.1 dev eth0 lladdr 00:11:22:33:44:55 REACHABLE
host lines 3
1 0 neigh op 0 0 done
2 4000 neigh op 0 2 done
3 6000 neigh op 0 4 counted 1
sender 1 items 1
1 0 inline 1 sent
marks 0
fates sent 1 fast 0 dropped 0 waiting 0
table 1
10.0.0.1 dev eth0 lladdr 00:11:22:33:44:55 REACHABLE
proxies 0
end
== confirm_in_delay_with_short_reachable_time: senders 1
param base_reachable_time 10
@0 neigh add 10.0.0.1 lladdr 00:11:22:33:44:55 nud stale
@0 send 1 10.0.0.1 01
@4000 confirm 10.0.0.1
@5009 neigh show
@5010 neigh show
-- report
bucket 0 lines 7
0 0 32 add 10.0.0.1 00:11:22:33:44:55 stale -> done
1 0 33 send 10.0.0.1 -> sent
  tx 33 001122334455020000000002080001
2 4000 64 confirm 10.0.0.1 -> done
3 5000 - timer 10.0.0.1 -> -
4 5009 96 show -> counted 1
  entry 10.0.0.1 dev eth0 lladdr 00:11:22:33:44:55 REACHABLE
5 5010 - timer 10.0.0.1 -> -
6 5010 128 show -> counted 1
  entry 10.0.0.1 dev eth0 lladdr 00:11:22:33:44:55 STALE
host lines 4
1 0 neigh op 0 0 done
2 4000 neigh op 0 2 done
3 5009 neigh op 0 4 counted 1
4 5010 neigh op 0 6 counted 1
sender 1 items 1
1 0 inline 1 sent
marks 0
fates sent 1 fast 0 dropped 0 waiting 0
table 1
10.0.0.1 dev eth0 lladdr 00:11:22:33:44:55 STALE
proxies 0
end
== confirm_at_the_due_of_delay_comes_too_late: senders 1
@0 neigh add 10.0.0.1 lladdr 00:11:22:33:44:55 nud stale
@0 send 1 10.0.0.1 01
@5000 confirm 10.0.0.1
@5000 send 1 10.0.0.1 02
@8000 neigh show
-- report
bucket 0 lines 9
0 0 32 add 10.0.0.1 00:11:22:33:44:55 stale -> done
1 0 33 send 10.0.0.1 -> sent
  tx 33 001122334455020000000002080001
2 5000 - timer 10.0.0.1 -> -
  solicit 001122334455020000000002080600010800060400010200000000020a0000020000000000000a000001
3 5000 64 confirm 10.0.0.1 -> done
4 5000 65 send 10.0.0.1 -> sent
  tx 65 001122334455020000000002080002
5 6000 - timer 10.0.0.1 -> -
  solicit 001122334455020000000002080600010800060400010200000000020a0000020000000000000a000001
6 7000 - timer 10.0.0.1 -> -
  solicit 001122334455020000000002080600010800060400010200000000020a0000020000000000000a000001
7 8000 - timer 10.0.0.1 -> -
8 8000 96 show -> counted 1
  entry 10.0.0.1 dev eth0 FAILED
host lines 3
1 0 neigh op 0 0 done
2 5000 neigh op 0 3 done
3 8000 neigh op 0 8 counted 1
sender 1 items 2
1 0 inline 1 sent
2 5000 inline 4 sent
marks 0
fates sent 2 fast 0 dropped 0 waiting 0
table 1
10.0.0.1 dev eth0 FAILED
proxies 0
end
== confirm_counts_from_the_moment_of_the_send: senders 1
@0 neigh add 10.0.0.1 lladdr 00:11:22:33:44:55 nud stale
@0 neigh add 10.0.0.3 lladdr 00:11:22:33:44:66 nud stale
@6 confirm 10.0.0.3
@7 confirm 10.0.0.1
@7 send 1 10.0.0.1 01
@7 send 1 10.0.0.3 02
@5007 neigh show
-- report
bucket 0 lines 9
0 0 32 add 10.0.0.1 00:11:22:33:44:55 stale -> done
1 0 64 add 10.0.0.3 00:11:22:33:44:66 stale -> done
2 6 96 confirm 10.0.0.3 -> done
3 7 128 confirm 10.0.0.1 -> done
4 7 33 send 10.0.0.1 -> sent
  tx 33 001122334455020000000002080001
5 7 65 send 10.0.0.3 -> sent
  tx 65 001122334466020000000002080002
6 5007 - timer 10.0.0.1 -> -
7 5007 - timer 10.0.0.3 -> -
  solicit 001122334466020000000002080600010800060400010200000000020a0000020000000000000a000003
8 5007 160 show -> counted 2
  entry 10.0.0.1 dev eth0 lladdr 00:11:22:33:44:55 REACHABLE
  entry 10.0.0.3 dev eth0 lladdr 00:11:22:33:44:66 PROBE
host lines 5
1 0 neigh op 0 0 done
2 0 neigh op 0 1 done
3 6 neigh op 0 2 done
4 7 neigh op 0 3 done
5 5007 neigh op 0 8 counted 2
sender 1 items 2
1 7 inline 4 sent
2 7 inline 5 sent
marks 0
fates sent 2 fast 0 dropped 0 waiting 0
table 2
10.0.0.1 dev eth0 lladdr 00:11:22:33:44:55 REACHABLE
10.0.0.3 dev eth0 lladdr 00:11:22:33:44:66 PROBE
proxies 0
end
== reachable_delay_and_back: senders 1
param base_reachable_time 100
param delay_first_probe_time 50
@0 neigh add 10.0.0.1 lladdr 00:11:22:33:44:55 nud stale
@0 send 1 10.0.0.1 01
@20 confirm 10.0.0.1
@80 send 1 10.0.0.1 02
@129 neigh show
@180 neigh show
-- report
bucket 0 lines 10
0 0 32 add 10.0.0.1 00:11:22:33:44:55 stale -> done
1 0 33 send 10.0.0.1 -> sent
  tx 33 001122334455020000000002080001
2 20 64 confirm 10.0.0.1 -> done
3 50 - timer 10.0.0.1 -> -
4 80 65 send 10.0.0.1 -> sent
  tx 65 001122334455020000000002080002
5 120 - timer 10.0.0.1 -> -
6 129 96 show -> counted 1
  entry 10.0.0.1 dev eth0 lladdr 00:11:22:33:44:55 REACHABLE
7 130 - timer 10.0.0.1 -> -
8 180 - timer 10.0.0.1 -> -
  solicit 001122334455020000000002080600010800060400010200000000020a0000020000000000000a000001
9 180 128 show -> counted 1
  entry 10.0.0.1 dev eth0 lladdr 00:11:22:33:44:55 PROBE
host lines 4
1 0 neigh op 0 0 done
2 20 neigh op 0 2 done
3 129 neigh op 0 6 counted 1
4 180 neigh op 0 9 counted 1
sender 1 items 2
1 0 inline 1 sent
2 80 inline 4 sent
marks 0
fates sent 2 fast 0 dropped 0 waiting 0
table 1
10.0.0.1 dev eth0 lladdr 00:11:22:33:44:55 PROBE
proxies 0
end
== delay_longer_than_the_reachable_time: senders 1
param delay_first_probe_time 40000
@0 neigh add 10.0.0.1 lladdr 00:11:22:33:44:55 nud reachable
@30010 neigh show
@50000 confirm 10.0.0.1
@70010 neigh show
-- report
bucket 0 lines 9
0 0 32 add 10.0.0.1 00:11:22:33:44:55 reachable -> done
1 30000 - timer 10.0.0.1 -> -
2 30000 - sweep -> -
3 30010 - timer 10.0.0.1 -> -
4 30010 64 show -> counted 1
  entry 10.0.0.1 dev eth0 lladdr 00:11:22:33:44:55 DELAY
5 50000 96 confirm 10.0.0.1 -> done
6 60000 - sweep -> -
7 70010 - timer 10.0.0.1 -> -
8 70010 128 show -> counted 1
  entry 10.0.0.1 dev eth0 lladdr 00:11:22:33:44:55 REACHABLE
host lines 4
1 0 neigh op 0 0 done
2 30010 neigh op 0 4 counted 1
3 50000 neigh op 0 5 done
4 70010 neigh op 0 8 counted 1
sender 1 items 0
marks 0
fates sent 0 fast 0 dropped 0 waiting 0
table 1
10.0.0.1 dev eth0 lladdr 00:11:22:33:44:55 REACHABLE
proxies 0
end
== confirm_needs_a_valid_state: senders 1
@0 confirm 10.0.0.1
@0 neigh add 10.0.0.1 lladdr 00:11:22:33:44:55
@0 neigh add 10.0.0.3 lladdr 00:11:22:33:44:66 nud noarp
@0 send 1 10.0.0.4 01
@1 confirm 10.0.0.1
@1 confirm 10.0.0.3
@1 confirm 10.0.0.4
@2 neigh del 10.0.0.1
@2 confirm 10.0.0.1
-- report
bucket 0 lines 9
0 0 32 confirm 10.0.0.1 -> ignored
1 0 64 add 10.0.0.1 00:11:22:33:44:55 permanent -> done
2 0 96 add 10.0.0.3 00:11:22:33:44:66 noarp -> done
3 0 33 send 10.0.0.4 -> waits
  solicit ffffffffffff020000000002080600010800060400010200000000020a0000020000000000000a000004
  wait 33
4 1 128 confirm 10.0.0.1 -> done
5 1 160 confirm 10.0.0.3 -> done
6 1 192 confirm 10.0.0.4 -> ignored
7 2 224 del 10.0.0.1 -> done
8 2 256 confirm 10.0.0.1 -> ignored
host lines 8
1 0 neigh op 0 0 ignored
2 0 neigh op 0 1 done
3 0 neigh op 0 2 done
4 1 neigh op 0 4 done
5 1 neigh op 0 5 done
6 1 neigh op 0 6 ignored
7 2 neigh op 0 7 done
8 2 neigh op 0 8 ignored
sender 1 items 1
1 0 inline 3 waits
marks 0
fates sent 0 fast 0 dropped 0 waiting 1
table 2
10.0.0.3 dev eth0 lladdr 00:11:22:33:44:66 NOARP
10.0.0.4 dev eth0 INCOMPLETE
proxies 0
end
";
