//! Scripts of timers and sweeps. The table is cut as `scripts.rt` says.

pub fn table() -> &'static str {
    TABLE
}

const TABLE: &str = "\
== permanent_and_noarp_need_no_timers: senders 1
@0 neigh add 10.0.0.1 lladdr 00:11:22:33:44:55
@0 neigh add 10.0.0.3 lladdr 00:11:22:33:44:66 nud noarp
@100000 send 1 10.0.0.1 01
@100000 send 1 10.0.0.3 02
@200000 neigh show
-- report
bucket 0 lines 11
0 0 32 add 10.0.0.1 00:11:22:33:44:55 permanent -> done
1 0 64 add 10.0.0.3 00:11:22:33:44:66 noarp -> done
2 30000 - sweep -> -
3 60000 - sweep -> -
4 90000 - sweep -> -
5 100000 33 send 10.0.0.1 -> sent
  tx 33 001122334455020000000002080001
6 100000 65 send 10.0.0.3 -> sent
  tx 65 001122334466020000000002080002
7 120000 - sweep -> -
8 150000 - sweep -> -
9 180000 - sweep -> -
10 200000 96 show -> counted 2
  entry 10.0.0.1 dev eth0 lladdr 00:11:22:33:44:55 PERMANENT
  entry 10.0.0.3 dev eth0 lladdr 00:11:22:33:44:66 NOARP
host lines 3
1 0 neigh op 0 0 done
2 0 neigh op 0 1 done
3 200000 neigh op 0 10 counted 2
sender 1 items 2
1 100000 inline 5 sent
2 100000 inline 6 sent
marks 0
fates sent 2 fast 0 dropped 0 waiting 0
table 2
10.0.0.1 dev eth0 lladdr 00:11:22:33:44:55 PERMANENT
10.0.0.3 dev eth0 lladdr 00:11:22:33:44:66 NOARP
proxies 0
end
== stale_delay_probe_failed: senders 1
@0 neigh add 10.0.0.1 lladdr 00:11:22:33:44:55 nud stale
@10 send 1 10.0.0.1 01
@4000 send 1 10.0.0.1 02
@6000 send 1 10.0.0.1 03
@8010 send 1 10.0.0.1 04
-- report
bucket 0 lines 9
0 0 32 add 10.0.0.1 00:11:22:33:44:55 stale -> done
1 10 33 send 10.0.0.1 -> sent
  tx 33 001122334455020000000002080001
2 4000 65 send 10.0.0.1 -> sent
  tx 65 001122334455020000000002080002
3 5010 - timer 10.0.0.1 -> -
  solicit 001122334455020000000002080600010800060400010200000000020a0000020000000000000a000001
4 6000 97 send 10.0.0.1 -> sent
  tx 97 001122334455020000000002080003
5 6010 - timer 10.0.0.1 -> -
  solicit 001122334455020000000002080600010800060400010200000000020a0000020000000000000a000001
6 7010 - timer 10.0.0.1 -> -
  solicit 001122334455020000000002080600010800060400010200000000020a0000020000000000000a000001
7 8010 - timer 10.0.0.1 -> -
8 8010 129 send 10.0.0.1 -> waits
  solicit ffffffffffff020000000002080600010800060400010200000000020a0000020000000000000a000001
  wait 129
host lines 1
1 0 neigh op 0 0 done
sender 1 items 4
1 10 inline 1 sent
2 4000 inline 2 sent
3 6000 inline 4 sent
4 8010 inline 8 waits
marks 0
fates sent 3 fast 0 dropped 0 waiting 1
table 1
10.0.0.1 dev eth0 INCOMPLETE
proxies 0
end
== one_unicast_probe: senders 1
param ucast_solicit 1
param delay_first_probe_time 10
param retrans_time 20
@0 neigh add 10.0.0.1 lladdr 00:11:22:33:44:55 nud stale
@5 send 1 10.0.0.1 01
@15 neigh show
@35 neigh show
-- report
bucket 0 lines 6
0 0 32 add 10.0.0.1 00:11:22:33:44:55 stale -> done
1 5 33 send 10.0.0.1 -> sent
  tx 33 001122334455020000000002080001
2 15 - timer 10.0.0.1 -> -
  solicit 001122334455020000000002080600010800060400010200000000020a0000020000000000000a000001
3 15 64 show -> counted 1
  entry 10.0.0.1 dev eth0 lladdr 00:11:22:33:44:55 PROBE
4 35 - timer 10.0.0.1 -> -
5 35 96 show -> counted 1
  entry 10.0.0.1 dev eth0 FAILED
host lines 3
1 0 neigh op 0 0 done
2 15 neigh op 0 3 counted 1
3 35 neigh op 0 5 counted 1
sender 1 items 1
1 5 inline 1 sent
marks 0
fates sent 1 fast 0 dropped 0 waiting 0
table 1
10.0.0.1 dev eth0 FAILED
proxies 0
end
== delay_without_unicast_probes: senders 1
param ucast_solicit 0
@0 neigh add 10.0.0.1 lladdr 00:11:22:33:44:55 nud stale
@0 send 1 10.0.0.1 4500
@4999 neigh show
@5000 neigh show
-- report
bucket 0 lines 5
0 0 32 add 10.0.0.1 00:11:22:33:44:55 stale -> done
1 0 33 send 10.0.0.1 -> sent
  tx 33 00112233445502000000000208004500
2 4999 64 show -> counted 1
  entry 10.0.0.1 dev eth0 lladdr 00:11:22:33:44:55 DELAY
3 5000 - timer 10.0.0.1 -> -
4 5000 96 show -> counted 1
  entry 10.0.0.1 dev eth0 FAILED
host lines 3
1 0 neigh op 0 0 done
2 4999 neigh op 0 2 counted 1
3 5000 neigh op 0 4 counted 1
sender 1 items 1
1 0 inline 1 sent
marks 0
fates sent 1 fast 0 dropped 0 waiting 0
table 1
10.0.0.1 dev eth0 FAILED
proxies 0
end
== reachable_turns_stale: senders 1
@0 neigh add 10.0.0.1 lladdr 00:11:22:33:44:55 nud reachable
@40000 neigh show
-- report
bucket 0 lines 5
0 0 32 add 10.0.0.1 00:11:22:33:44:55 reachable -> done
1 30000 - timer 10.0.0.1 -> -
2 30000 - sweep -> -
3 30010 - timer 10.0.0.1 -> -
4 40000 64 show -> counted 1
  entry 10.0.0.1 dev eth0 lladdr 00:11:22:33:44:55 STALE
host lines 2
1 0 neigh op 0 0 done
2 40000 neigh op 0 4 counted 1
sender 1 items 0
marks 0
fates sent 0 fast 0 dropped 0 waiting 0
table 1
10.0.0.1 dev eth0 lladdr 00:11:22:33:44:55 STALE
proxies 0
end
== use_just_within_five_seconds_delays: senders 1
@0 neigh add 10.0.0.1 lladdr 00:11:22:33:44:55 nud reachable
@0 neigh add 10.0.0.3 lladdr 00:11:22:33:44:66 nud reachable
@25009 send 1 10.0.0.3 01
@25010 send 1 10.0.0.1 02
@30010 neigh show
@35010 neigh show
-- report
bucket 0 lines 12
0 0 32 add 10.0.0.1 00:11:22:33:44:55 reachable -> done
1 0 64 add 10.0.0.3 00:11:22:33:44:66 reachable -> done
2 25009 33 send 10.0.0.3 -> sent
  tx 33 001122334466020000000002080001
3 25010 65 send 10.0.0.1 -> sent
  tx 65 001122334455020000000002080002
4 30000 - timer 10.0.0.1 -> -
5 30000 - timer 10.0.0.3 -> -
6 30000 - sweep -> -
7 30010 - timer 10.0.0.1 -> -
8 30010 - timer 10.0.0.3 -> -
9 30010 96 show -> counted 2
  entry 10.0.0.1 dev eth0 lladdr 00:11:22:33:44:55 DELAY
  entry 10.0.0.3 dev eth0 lladdr 00:11:22:33:44:66 STALE
10 35010 - timer 10.0.0.1 -> -
  solicit 001122334455020000000002080600010800060400010200000000020a0000020000000000000a000001
11 35010 128 show -> counted 2
  entry 10.0.0.1 dev eth0 lladdr 00:11:22:33:44:55 PROBE
  entry 10.0.0.3 dev eth0 lladdr 00:11:22:33:44:66 STALE
host lines 4
1 0 neigh op 0 0 done
2 0 neigh op 0 1 done
3 30010 neigh op 0 9 counted 2
4 35010 neigh op 0 11 counted 2
sender 1 items 2
1 25009 inline 2 sent
2 25010 inline 3 sent
marks 0
fates sent 2 fast 0 dropped 0 waiting 0
table 2
10.0.0.1 dev eth0 lladdr 00:11:22:33:44:55 PROBE
10.0.0.3 dev eth0 lladdr 00:11:22:33:44:66 STALE
proxies 0
end
== making_an_entry_counts_as_use: senders 1
param base_reachable_time 10
@0 neigh add 10.0.0.1 lladdr 00:11:22:33:44:55 nud reachable
@20 neigh show
@9000 neigh show
-- report
bucket 0 lines 9
0 0 32 add 10.0.0.1 00:11:22:33:44:55 reachable -> done
1 10 - timer 10.0.0.1 -> -
2 20 - timer 10.0.0.1 -> -
3 20 64 show -> counted 1
  entry 10.0.0.1 dev eth0 lladdr 00:11:22:33:44:55 DELAY
4 5020 - timer 10.0.0.1 -> -
  solicit 001122334455020000000002080600010800060400010200000000020a0000020000000000000a000001
5 6020 - timer 10.0.0.1 -> -
  solicit 001122334455020000000002080600010800060400010200000000020a0000020000000000000a000001
6 7020 - timer 10.0.0.1 -> -
  solicit 001122334455020000000002080600010800060400010200000000020a0000020000000000000a000001
7 8020 - timer 10.0.0.1 -> -
8 9000 96 show -> counted 1
  entry 10.0.0.1 dev eth0 FAILED
host lines 3
1 0 neigh op 0 0 done
2 20 neigh op 0 3 counted 1
3 9000 neigh op 0 8 counted 1
sender 1 items 0
marks 0
fates sent 0 fast 0 dropped 0 waiting 0
table 1
10.0.0.1 dev eth0 FAILED
proxies 0
end
== send_at_the_last_reachable_timer: senders 1
@0 neigh add 10.0.0.1 lladdr 00:11:22:33:44:55 nud reachable
@30010 send 1 10.0.0.1 01
@35010 neigh show
-- report
bucket 0 lines 7
0 0 32 add 10.0.0.1 00:11:22:33:44:55 reachable -> done
1 30000 - timer 10.0.0.1 -> -
2 30000 - sweep -> -
3 30010 - timer 10.0.0.1 -> -
4 30010 33 send 10.0.0.1 -> sent
  tx 33 001122334455020000000002080001
5 35010 - timer 10.0.0.1 -> -
  solicit 001122334455020000000002080600010800060400010200000000020a0000020000000000000a000001
6 35010 64 show -> counted 1
  entry 10.0.0.1 dev eth0 lladdr 00:11:22:33:44:55 PROBE
host lines 2
1 0 neigh op 0 0 done
2 35010 neigh op 0 6 counted 1
sender 1 items 1
1 30010 inline 4 sent
marks 0
fates sent 1 fast 0 dropped 0 waiting 0
table 1
10.0.0.1 dev eth0 lladdr 00:11:22:33:44:55 PROBE
proxies 0
end
== sweeps_of_an_empty_table: senders 1
@29999 neigh show
@30000 neigh show
@60001 neigh show
-- report
bucket 0 lines 5
0 29999 32 show -> counted 0
1 30000 - sweep -> -
2 30000 64 show -> counted 0
3 60000 - sweep -> -
4 60001 96 show -> counted 0
host lines 3
1 29999 neigh op 0 0 counted 0
2 30000 neigh op 0 2 counted 0
3 60001 neigh op 0 4 counted 0
sender 1 items 0
marks 0
fates sent 0 fast 0 dropped 0 waiting 0
table 0
proxies 0
end
== sweeps_spare_a_small_table: senders 1
@0 neigh add 10.0.0.1 lladdr 00:11:22:33:44:55 nud stale
@0 send 1 10.0.0.3 01
@200000 neigh show
-- report
bucket 0 lines 12
0 0 32 add 10.0.0.1 00:11:22:33:44:55 stale -> done
1 0 33 send 10.0.0.3 -> waits
  solicit ffffffffffff020000000002080600010800060400010200000000020a0000020000000000000a000003
  wait 33
2 1000 - timer 10.0.0.3 -> -
  solicit ffffffffffff020000000002080600010800060400010200000000020a0000020000000000000a000003
3 2000 - timer 10.0.0.3 -> -
  solicit ffffffffffff020000000002080600010800060400010200000000020a0000020000000000000a000003
4 3000 - timer 10.0.0.3 -> -
  drop 33 unresolved
5 30000 - sweep -> -
6 60000 - sweep -> -
7 90000 - sweep -> -
8 120000 - sweep -> -
9 150000 - sweep -> -
10 180000 - sweep -> -
11 200000 64 show -> counted 2
  entry 10.0.0.1 dev eth0 lladdr 00:11:22:33:44:55 STALE
  entry 10.0.0.3 dev eth0 FAILED
host lines 2
1 0 neigh op 0 0 done
2 200000 neigh op 0 11 counted 2
sender 1 items 1
1 0 inline 1 waits
marks 0
fates sent 0 fast 0 dropped 1 waiting 0
table 2
10.0.0.1 dev eth0 lladdr 00:11:22:33:44:55 STALE
10.0.0.3 dev eth0 FAILED
proxies 0
end
";
