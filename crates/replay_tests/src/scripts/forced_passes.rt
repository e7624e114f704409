//! Scripts of tables that fill and of forced passes. The table is cut as `scripts.rt` says.

pub fn table() -> &'static str {
    TABLE
}

const TABLE: &str = "\
== full_table_and_forced_pass: senders 1
param gc_thresh1 1
param gc_thresh2 2
param gc_thresh3 3
@0 send 1 10.0.0.11 01
@0 send 1 10.0.0.12 02
@0 send 1 10.0.0.13 03
@0 send 1 10.0.0.14 04
@5001 send 1 10.0.0.14 05
-- report
bucket 0 lines 16
0 0 33 send 10.0.0.11 -> waits
  solicit ffffffffffff020000000002080600010800060400010200000000020a0000020000000000000a00000b
  wait 33
1 0 65 send 10.0.0.12 -> waits
  solicit ffffffffffff020000000002080600010800060400010200000000020a0000020000000000000a00000c
  wait 65
2 0 97 send 10.0.0.13 -> waits
  solicit ffffffffffff020000000002080600010800060400010200000000020a0000020000000000000a00000d
  wait 97
3 0 129 send 10.0.0.14 -> full 3
  drop 129 tablefull
4 1000 - timer 10.0.0.11 -> -
  solicit ffffffffffff020000000002080600010800060400010200000000020a0000020000000000000a00000b
5 1000 - timer 10.0.0.12 -> -
  solicit ffffffffffff020000000002080600010800060400010200000000020a0000020000000000000a00000c
6 1000 - timer 10.0.0.13 -> -
  solicit ffffffffffff020000000002080600010800060400010200000000020a0000020000000000000a00000d
7 2000 - timer 10.0.0.11 -> -
  solicit ffffffffffff020000000002080600010800060400010200000000020a0000020000000000000a00000b
8 2000 - timer 10.0.0.12 -> -
  solicit ffffffffffff020000000002080600010800060400010200000000020a0000020000000000000a00000c
9 2000 - timer 10.0.0.13 -> -
  solicit ffffffffffff020000000002080600010800060400010200000000020a0000020000000000000a00000d
10 3000 - timer 10.0.0.11 -> -
  drop 33 unresolved
11 3000 - timer 10.0.0.12 -> -
  drop 65 unresolved
12 3000 - timer 10.0.0.13 -> -
  drop 97 unresolved
13 5001 - collect 10.0.0.11 -> -
14 5001 - collect 10.0.0.12 -> -
15 5001 161 send 10.0.0.14 -> waits
  solicit ffffffffffff020000000002080600010800060400010200000000020a0000020000000000000a00000e
  wait 161
host lines 0
sender 1 items 5
1 0 inline 0 waits
2 0 inline 1 waits
3 0 inline 2 waits
4 0 inline 3 full 3
5 5001 inline 15 waits
marks 0
fates sent 0 fast 0 dropped 4 waiting 1
table 2
10.0.0.13 dev eth0 FAILED
10.0.0.14 dev eth0 INCOMPLETE
proxies 0
end
== pass_that_takes_nothing_is_the_last_one: senders 1
param gc_thresh2 1
param gc_thresh3 9
@1 neigh add 10.0.0.11 lladdr 00:11:22:33:44:55 nud stale
@5001 neigh add 10.0.0.12 lladdr 00:11:22:33:44:55 nud stale
@5002 neigh add 10.0.0.13 lladdr 00:11:22:33:44:55 nud stale
@10001 neigh add 10.0.0.14 lladdr 00:11:22:33:44:55 nud stale
@10002 neigh add 10.0.0.15 lladdr 00:11:22:33:44:55 nud stale
@10003 neigh show
-- report
bucket 0 lines 8
0 1 32 add 10.0.0.11 00:11:22:33:44:55 stale -> done
1 5001 64 add 10.0.0.12 00:11:22:33:44:55 stale -> done
2 5002 96 add 10.0.0.13 00:11:22:33:44:55 stale -> done
3 10001 128 add 10.0.0.14 00:11:22:33:44:55 stale -> done
4 10002 - collect 10.0.0.11 -> -
5 10002 - collect 10.0.0.12 -> -
6 10002 160 add 10.0.0.15 00:11:22:33:44:55 stale -> done
7 10003 192 show -> counted 3
  entry 10.0.0.13 dev eth0 lladdr 00:11:22:33:44:55 STALE
  entry 10.0.0.14 dev eth0 lladdr 00:11:22:33:44:55 STALE
  entry 10.0.0.15 dev eth0 lladdr 00:11:22:33:44:55 STALE
host lines 6
1 1 neigh op 0 0 done
2 5001 neigh op 0 1 done
3 5002 neigh op 0 2 done
4 10001 neigh op 0 3 done
5 10002 neigh op 0 6 done
6 10003 neigh op 0 7 counted 3
sender 1 items 0
marks 0
fates sent 0 fast 0 dropped 0 waiting 0
table 3
10.0.0.13 dev eth0 lladdr 00:11:22:33:44:55 STALE
10.0.0.14 dev eth0 lladdr 00:11:22:33:44:55 STALE
10.0.0.15 dev eth0 lladdr 00:11:22:33:44:55 STALE
proxies 0
end
== second_threshold_above_the_third: senders 1
param gc_thresh1 1
param gc_thresh2 3
param gc_thresh3 2
@0 neigh add 10.0.0.11 lladdr 00:11:22:33:44:55 nud stale
@0 neigh add 10.0.0.12 lladdr 00:11:22:33:44:55 nud stale
@6000 neigh add 10.0.0.13 lladdr 00:11:22:33:44:55 nud stale
@6001 neigh del 10.0.0.11
@6001 neigh add 10.0.0.14 lladdr 00:11:22:33:44:55 nud stale
@20000 neigh add 10.0.0.15 lladdr 00:11:22:33:44:55 nud stale
@20000 neigh show
-- report
bucket 0 lines 7
0 0 32 add 10.0.0.11 00:11:22:33:44:55 stale -> done
1 0 64 add 10.0.0.12 00:11:22:33:44:55 stale -> done
2 6000 96 add 10.0.0.13 00:11:22:33:44:55 stale -> full 2
3 6001 128 del 10.0.0.11 -> done
4 6001 160 add 10.0.0.14 00:11:22:33:44:55 stale -> done
5 20000 192 add 10.0.0.15 00:11:22:33:44:55 stale -> full 2
6 20000 224 show -> counted 2
  entry 10.0.0.12 dev eth0 lladdr 00:11:22:33:44:55 STALE
  entry 10.0.0.14 dev eth0 lladdr 00:11:22:33:44:55 STALE
host lines 7
1 0 neigh op 0 0 done
2 0 neigh op 0 1 done
3 6000 neigh op 0 2 full 2
4 6001 neigh op 0 3 done
5 6001 neigh op 0 4 done
6 20000 neigh op 0 5 full 2
7 20000 neigh op 0 6 counted 2
sender 1 items 0
marks 0
fates sent 0 fast 0 dropped 0 waiting 0
table 2
10.0.0.12 dev eth0 lladdr 00:11:22:33:44:55 STALE
10.0.0.14 dev eth0 lladdr 00:11:22:33:44:55 STALE
proxies 0
end
== pass_spares_permanent_noarp_and_waiting: senders 1
param gc_thresh2 1
param gc_thresh3 5
param mcast_solicit 10
@0 neigh add 10.0.0.1 lladdr 00:11:22:33:44:55
@0 neigh add 10.0.0.3 lladdr 00:11:22:33:44:66 nud stale
@0 send 1 10.0.0.4 01
@0 neigh add 10.0.0.5 lladdr 00:11:22:33:44:77 nud noarp
@5000 neigh add 10.0.0.6 lladdr 00:11:22:33:44:77 nud stale
@5001 neigh replace 10.0.0.7 lladdr 00:11:22:33:44:77 nud stale
@5002 neigh show
-- report
bucket 0 lines 13
0 0 32 add 10.0.0.1 00:11:22:33:44:55 permanent -> done
1 0 64 add 10.0.0.3 00:11:22:33:44:66 stale -> done
2 0 96 add 10.0.0.5 00:11:22:33:44:77 noarp -> done
3 0 33 send 10.0.0.4 -> waits
  solicit ffffffffffff020000000002080600010800060400010200000000020a0000020000000000000a000004
  wait 33
4 1000 - timer 10.0.0.4 -> -
  solicit ffffffffffff020000000002080600010800060400010200000000020a0000020000000000000a000004
5 2000 - timer 10.0.0.4 -> -
  solicit ffffffffffff020000000002080600010800060400010200000000020a0000020000000000000a000004
6 3000 - timer 10.0.0.4 -> -
  solicit ffffffffffff020000000002080600010800060400010200000000020a0000020000000000000a000004
7 4000 - timer 10.0.0.4 -> -
  solicit ffffffffffff020000000002080600010800060400010200000000020a0000020000000000000a000004
8 5000 - timer 10.0.0.4 -> -
  solicit ffffffffffff020000000002080600010800060400010200000000020a0000020000000000000a000004
9 5000 128 add 10.0.0.6 00:11:22:33:44:77 stale -> done
10 5001 - collect 10.0.0.3 -> -
11 5001 160 replace 10.0.0.7 00:11:22:33:44:77 stale -> done
12 5002 192 show -> counted 5
  entry 10.0.0.1 dev eth0 lladdr 00:11:22:33:44:55 PERMANENT
  entry 10.0.0.5 dev eth0 lladdr 00:11:22:33:44:77 NOARP
  entry 10.0.0.4 dev eth0 INCOMPLETE
  entry 10.0.0.6 dev eth0 lladdr 00:11:22:33:44:77 STALE
  entry 10.0.0.7 dev eth0 lladdr 00:11:22:33:44:77 STALE
host lines 6
1 0 neigh op 0 0 done
2 0 neigh op 0 1 done
3 0 neigh op 0 2 done
4 5000 neigh op 0 9 done
5 5001 neigh op 0 11 done
6 5002 neigh op 0 12 counted 5
sender 1 items 1
1 0 inline 3 waits
marks 0
fates sent 0 fast 0 dropped 0 waiting 1
table 5
10.0.0.1 dev eth0 lladdr 00:11:22:33:44:55 PERMANENT
10.0.0.5 dev eth0 lladdr 00:11:22:33:44:77 NOARP
10.0.0.4 dev eth0 INCOMPLETE
10.0.0.6 dev eth0 lladdr 00:11:22:33:44:77 STALE
10.0.0.7 dev eth0 lladdr 00:11:22:33:44:77 STALE
proxies 0
end
== pass_goes_in_order_of_making: senders 1
param gc_thresh2 3
param gc_thresh3 9
@0 neigh add 10.0.0.13 lladdr 00:11:22:33:44:55 nud stale
@0 neigh add 10.0.0.11 lladdr 00:11:22:33:44:55 nud stale
@0 neigh add 10.0.0.12 lladdr 00:11:22:33:44:55 nud stale
@0 neigh del 10.0.0.13
@0 neigh add 10.0.0.13 lladdr 00:11:22:33:44:55 nud stale
@5001 neigh add 10.0.0.14 lladdr 00:11:22:33:44:55 nud stale
@5001 neigh show
@10002 neigh add 10.0.0.11 lladdr 00:11:22:33:44:55 nud stale
@10002 neigh show
-- report
bucket 0 lines 11
0 0 32 add 10.0.0.13 00:11:22:33:44:55 stale -> done
1 0 64 add 10.0.0.11 00:11:22:33:44:55 stale -> done
2 0 96 add 10.0.0.12 00:11:22:33:44:55 stale -> done
3 0 128 del 10.0.0.13 -> done
4 0 160 add 10.0.0.13 00:11:22:33:44:55 stale -> done
5 5001 - collect 10.0.0.11 -> -
6 5001 192 add 10.0.0.14 00:11:22:33:44:55 stale -> done
7 5001 224 show -> counted 3
  entry 10.0.0.13 dev eth0 lladdr 00:11:22:33:44:55 STALE
  entry 10.0.0.12 dev eth0 lladdr 00:11:22:33:44:55 STALE
  entry 10.0.0.14 dev eth0 lladdr 00:11:22:33:44:55 STALE
8 10002 - collect 10.0.0.12 -> -
9 10002 256 add 10.0.0.11 00:11:22:33:44:55 stale -> done
10 10002 288 show -> counted 3
  entry 10.0.0.13 dev eth0 lladdr 00:11:22:33:44:55 STALE
  entry 10.0.0.11 dev eth0 lladdr 00:11:22:33:44:55 STALE
  entry 10.0.0.14 dev eth0 lladdr 00:11:22:33:44:55 STALE
host lines 9
1 0 neigh op 0 0 done
2 0 neigh op 0 1 done
3 0 neigh op 0 2 done
4 0 neigh op 0 3 done
5 0 neigh op 0 4 done
6 5001 neigh op 0 6 done
7 5001 neigh op 0 7 counted 3
8 10002 neigh op 0 9 done
9 10002 neigh op 0 10 counted 3
sender 1 items 0
marks 0
fates sent 0 fast 0 dropped 0 waiting 0
table 3
10.0.0.13 dev eth0 lladdr 00:11:22:33:44:55 STALE
10.0.0.11 dev eth0 lladdr 00:11:22:33:44:55 STALE
10.0.0.14 dev eth0 lladdr 00:11:22:33:44:55 STALE
proxies 0
end
== pass_takes_failed_entries_at_once: senders 1
param gc_thresh1 1
param gc_thresh2 1
param gc_thresh3 2
param mcast_solicit 0
@0 send 1 10.0.0.11 01
@0 send 1 10.0.0.12 02
@1 send 1 10.0.0.13 03
@1 send 1 10.0.0.14 04
@1 neigh show
-- report
bucket 0 lines 7
0 0 33 send 10.0.0.11 -> noprobes
  drop 33 noprobes
1 0 65 send 10.0.0.12 -> noprobes
  drop 65 noprobes
2 1 32 show -> counted 2
  entry 10.0.0.11 dev eth0 FAILED
  entry 10.0.0.12 dev eth0 FAILED
3 1 - collect 10.0.0.11 -> -
4 1 - collect 10.0.0.12 -> -
5 1 97 send 10.0.0.13 -> noprobes
  drop 97 noprobes
6 1 129 send 10.0.0.14 -> noprobes
  drop 129 noprobes
host lines 1
1 1 neigh op 0 2 counted 2
sender 1 items 4
1 0 inline 0 noprobes
2 0 inline 1 noprobes
3 1 inline 5 noprobes
4 1 inline 6 noprobes
marks 0
fates sent 0 fast 0 dropped 4 waiting 0
table 2
10.0.0.13 dev eth0 FAILED
10.0.0.14 dev eth0 FAILED
proxies 0
end
== pass_goes_by_the_last_change_of_state: senders 1
param gc_thresh2 2
param gc_thresh3 9
param delay_first_probe_time 30000
@0 neigh add 10.0.0.11 lladdr 00:11:22:33:44:55 nud stale
@0 neigh add 10.0.0.12 lladdr 00:11:22:33:44:55 nud stale
@1 send 1 10.0.0.11 01
@2 confirm 10.0.0.12
@5001 neigh add 10.0.0.13 lladdr 00:11:22:33:44:55 nud stale
@5002 neigh show
-- report
bucket 0 lines 7
0 0 32 add 10.0.0.11 00:11:22:33:44:55 stale -> done
1 0 64 add 10.0.0.12 00:11:22:33:44:55 stale -> done
2 1 33 send 10.0.0.11 -> sent
  tx 33 001122334455020000000002080001
3 2 96 confirm 10.0.0.12 -> done
4 5001 - collect 10.0.0.12 -> -
5 5001 128 add 10.0.0.13 00:11:22:33:44:55 stale -> done
6 5002 160 show -> counted 2
  entry 10.0.0.11 dev eth0 lladdr 00:11:22:33:44:55 DELAY
  entry 10.0.0.13 dev eth0 lladdr 00:11:22:33:44:55 STALE
host lines 5
1 0 neigh op 0 0 done
2 0 neigh op 0 1 done
3 2 neigh op 0 3 done
4 5001 neigh op 0 5 done
5 5002 neigh op 0 6 counted 2
sender 1 items 1
1 1 inline 2 sent
marks 0
fates sent 1 fast 0 dropped 0 waiting 0
table 2
10.0.0.11 dev eth0 lladdr 00:11:22:33:44:55 DELAY
10.0.0.13 dev eth0 lladdr 00:11:22:33:44:55 STALE
proxies 0
end
== collected_key_keeps_its_rank_and_loses_its_timer: senders 1
param gc_thresh1 1
param gc_thresh2 2
param gc_thresh3 2
@0 neigh add 10.0.0.11 lladdr 00:11:22:33:44:55 nud reachable
@0 neigh add 10.0.0.12 lladdr 00:11:22:33:44:66 nud reachable
@5001 neigh add 10.0.0.13 lladdr 00:11:22:33:44:55 nud stale
@5002 neigh del 10.0.0.12
@5002 neigh add 10.0.0.11 lladdr 00:11:22:33:44:55 nud stale
@30010 neigh show
-- report
bucket 0 lines 8
0 0 32 add 10.0.0.11 00:11:22:33:44:55 reachable -> done
1 0 64 add 10.0.0.12 00:11:22:33:44:66 reachable -> done
2 5001 - collect 10.0.0.11 -> -
3 5001 96 add 10.0.0.13 00:11:22:33:44:55 stale -> done
4 5002 128 del 10.0.0.12 -> done
5 5002 160 add 10.0.0.11 00:11:22:33:44:55 stale -> done
6 30000 - sweep -> -
7 30010 192 show -> counted 2
  entry 10.0.0.11 dev eth0 lladdr 00:11:22:33:44:55 STALE
  entry 10.0.0.13 dev eth0 lladdr 00:11:22:33:44:55 STALE
host lines 6
1 0 neigh op 0 0 done
2 0 neigh op 0 1 done
3 5001 neigh op 0 3 done
4 5002 neigh op 0 4 done
5 5002 neigh op 0 5 done
6 30010 neigh op 0 7 counted 2
sender 1 items 0
marks 0
fates sent 0 fast 0 dropped 0 waiting 0
table 2
10.0.0.11 dev eth0 lladdr 00:11:22:33:44:55 STALE
10.0.0.13 dev eth0 lladdr 00:11:22:33:44:55 STALE
proxies 0
end
== full_for_each_operation_that_makes: senders 1
param gc_thresh1 1
param gc_thresh2 1
param gc_thresh3 1
@0 neigh add 10.0.0.1 lladdr 00:11:22:33:44:55
@0 send 1 10.0.0.3 01
@1 neigh add 10.0.0.3 lladdr 00:11:22:33:44:66
@1 neigh replace 10.0.0.3 lladdr 00:11:22:33:44:66
@1 neigh add 10.0.0.3
@1 neigh replace 10.0.0.3
@1 neigh change 10.0.0.3 lladdr 00:11:22:33:44:66
@1 neigh del 10.0.0.3
@1 confirm 10.0.0.3
@1 neigh add 10.0.0.1 lladdr 00:11:22:33:44:66
@1 send 1 10.0.0.1 02
@2 neigh del 10.0.0.1
@2 neigh add 10.0.0.3 lladdr 00:11:22:33:44:66
@2 neigh show
-- report
bucket 0 lines 14
0 0 32 add 10.0.0.1 00:11:22:33:44:55 permanent -> done
1 0 33 send 10.0.0.3 -> full 1
  drop 33 tablefull
2 1 64 add 10.0.0.3 00:11:22:33:44:66 permanent -> full 1
3 1 96 replace 10.0.0.3 00:11:22:33:44:66 permanent -> full 1
4 1 128 add 10.0.0.3 - permanent -> noaddress
5 1 160 replace 10.0.0.3 - permanent -> noaddress
6 1 192 change 10.0.0.3 00:11:22:33:44:66 permanent -> missing
7 1 224 del 10.0.0.3 -> missing
8 1 256 confirm 10.0.0.3 -> ignored
9 1 288 add 10.0.0.1 00:11:22:33:44:66 permanent -> exists
10 1 65 send 10.0.0.1 -> sent
  tx 65 001122334455020000000002080002
11 2 320 del 10.0.0.1 -> done
12 2 352 add 10.0.0.3 00:11:22:33:44:66 permanent -> done
13 2 384 show -> counted 1
  entry 10.0.0.3 dev eth0 lladdr 00:11:22:33:44:66 PERMANENT
host lines 12
1 0 neigh op 0 0 done
2 1 neigh op 0 2 full 1
3 1 neigh op 0 3 full 1
4 1 neigh op 0 4 noaddress
5 1 neigh op 0 5 noaddress
6 1 neigh op 0 6 missing
7 1 neigh op 0 7 missing
8 1 neigh op 0 8 ignored
9 1 neigh op 0 9 exists
10 2 neigh op 0 11 done
11 2 neigh op 0 12 done
12 2 neigh op 0 13 counted 1
sender 1 items 2
1 0 inline 1 full 1
2 1 inline 10 sent
marks 0
fates sent 1 fast 0 dropped 1 waiting 0
table 1
10.0.0.3 dev eth0 lladdr 00:11:22:33:44:66 PERMANENT
proxies 0
end
";
