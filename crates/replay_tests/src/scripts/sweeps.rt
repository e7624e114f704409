//! Scripts of sweeps. The table is cut as `scripts.rt` says.

pub fn table() -> &'static str {
    TABLE
}

const TABLE: &str = "\
== third_sweep_removes: senders 1
param gc_thresh1 1
@0 neigh add 10.0.0.1 lladdr 00:11:22:33:44:55 nud stale
@90000 neigh show
-- report
bucket 0 lines 5
0 0 32 add 10.0.0.1 00:11:22:33:44:55 stale -> done
1 30000 - sweep -> -
2 60000 - sweep -> -
3 90000 - sweep -> -
4 90000 64 show -> counted 0
host lines 2
1 0 neigh op 0 0 done
2 90000 neigh op 0 4 counted 0
sender 1 items 0
marks 0
fates sent 0 fast 0 dropped 0 waiting 0
table 0
proxies 0
end
== sweep_goes_by_use_and_confirmation: senders 1
param gc_thresh1 1
param gc_interval 10000
param gc_stale_time 10000
@0 neigh add 10.0.0.1 lladdr 00:11:22:33:44:55 nud stale
@0 neigh add 10.0.0.3 lladdr 00:11:22:33:44:66 nud stale
@0 neigh add 10.0.0.4 lladdr 00:11:22:33:44:77 nud noarp
@0 neigh add 10.0.0.5 lladdr 00:11:22:33:44:77
@9999 confirm 10.0.0.1
@10000 confirm 10.0.0.3
@10000 neigh show
@20000 neigh show
-- report
bucket 0 lines 10
0 0 32 add 10.0.0.1 00:11:22:33:44:55 stale -> done
1 0 64 add 10.0.0.3 00:11:22:33:44:66 stale -> done
2 0 96 add 10.0.0.4 00:11:22:33:44:77 noarp -> done
3 0 128 add 10.0.0.5 00:11:22:33:44:77 permanent -> done
4 9999 160 confirm 10.0.0.1 -> done
5 10000 - sweep -> -
6 10000 192 confirm 10.0.0.3 -> done
7 10000 224 show -> counted 4
  entry 10.0.0.1 dev eth0 lladdr 00:11:22:33:44:55 STALE
  entry 10.0.0.3 dev eth0 lladdr 00:11:22:33:44:66 STALE
  entry 10.0.0.4 dev eth0 lladdr 00:11:22:33:44:77 NOARP
  entry 10.0.0.5 dev eth0 lladdr 00:11:22:33:44:77 PERMANENT
8 20000 - sweep -> -
9 20000 256 show -> counted 3
  entry 10.0.0.3 dev eth0 lladdr 00:11:22:33:44:66 STALE
  entry 10.0.0.4 dev eth0 lladdr 00:11:22:33:44:77 NOARP
  entry 10.0.0.5 dev eth0 lladdr 00:11:22:33:44:77 PERMANENT
host lines 8
1 0 neigh op 0 0 done
2 0 neigh op 0 1 done
3 0 neigh op 0 2 done
4 0 neigh op 0 3 done
5 9999 neigh op 0 4 done
6 10000 neigh op 0 6 done
7 10000 neigh op 0 7 counted 4
8 20000 neigh op 0 9 counted 3
sender 1 items 0
marks 0
fates sent 0 fast 0 dropped 0 waiting 0
table 3
10.0.0.3 dev eth0 lladdr 00:11:22:33:44:66 STALE
10.0.0.4 dev eth0 lladdr 00:11:22:33:44:77 NOARP
10.0.0.5 dev eth0 lladdr 00:11:22:33:44:77 PERMANENT
proxies 0
end
== sweep_that_sees_too_few_removes_nothing: senders 1
param gc_thresh1 3
param gc_interval 10000
param gc_stale_time 10
@0 neigh add 10.0.0.1 lladdr 00:11:22:33:44:55 nud stale
@0 neigh add 10.0.0.3 lladdr 00:11:22:33:44:66 nud stale
@10000 neigh show
@10001 neigh add 10.0.0.4 lladdr 00:11:22:33:44:77 nud stale
@20000 neigh show
-- report
bucket 0 lines 7
0 0 32 add 10.0.0.1 00:11:22:33:44:55 stale -> done
1 0 64 add 10.0.0.3 00:11:22:33:44:66 stale -> done
2 10000 - sweep -> -
3 10000 96 show -> counted 2
  entry 10.0.0.1 dev eth0 lladdr 00:11:22:33:44:55 STALE
  entry 10.0.0.3 dev eth0 lladdr 00:11:22:33:44:66 STALE
4 10001 128 add 10.0.0.4 00:11:22:33:44:77 stale -> done
5 20000 - sweep -> -
6 20000 160 show -> counted 0
host lines 5
1 0 neigh op 0 0 done
2 0 neigh op 0 1 done
3 10000 neigh op 0 3 counted 2
4 10001 neigh op 0 4 done
5 20000 neigh op 0 6 counted 0
sender 1 items 0
marks 0
fates sent 0 fast 0 dropped 0 waiting 0
table 0
proxies 0
end
== sweep_spares_what_waits_and_takes_what_failed: senders 1
param gc_thresh1 1
param gc_interval 10000
param retrans_time 4000
@0 send 1 10.0.0.11 01
@9999 send 1 10.0.0.12 02
@10000 neigh show
@20000 neigh show
@29999 neigh show
@30000 neigh show
-- report
bucket 0 lines 15
0 0 33 send 10.0.0.11 -> waits
  solicit ffffffffffff020000000002080600010800060400010200000000020a0000020000000000000a00000b
  wait 33
1 4000 - timer 10.0.0.11 -> -
  solicit ffffffffffff020000000002080600010800060400010200000000020a0000020000000000000a00000b
2 8000 - timer 10.0.0.11 -> -
  solicit ffffffffffff020000000002080600010800060400010200000000020a0000020000000000000a00000b
3 9999 65 send 10.0.0.12 -> waits
  solicit ffffffffffff020000000002080600010800060400010200000000020a0000020000000000000a00000c
  wait 65
4 10000 - sweep -> -
5 10000 32 show -> counted 2
  entry 10.0.0.11 dev eth0 INCOMPLETE
  entry 10.0.0.12 dev eth0 INCOMPLETE
6 12000 - timer 10.0.0.11 -> -
  drop 33 unresolved
7 13999 - timer 10.0.0.12 -> -
  solicit ffffffffffff020000000002080600010800060400010200000000020a0000020000000000000a00000c
8 17999 - timer 10.0.0.12 -> -
  solicit ffffffffffff020000000002080600010800060400010200000000020a0000020000000000000a00000c
9 20000 - sweep -> -
10 20000 64 show -> counted 1
  entry 10.0.0.12 dev eth0 INCOMPLETE
11 21999 - timer 10.0.0.12 -> -
  drop 65 unresolved
12 29999 96 show -> counted 1
  entry 10.0.0.12 dev eth0 FAILED
13 30000 - sweep -> -
14 30000 128 show -> counted 0
host lines 4
1 10000 neigh op 0 5 counted 2
2 20000 neigh op 0 10 counted 1
3 29999 neigh op 0 12 counted 1
4 30000 neigh op 0 14 counted 0
sender 1 items 2
1 0 inline 0 waits
2 9999 inline 3 waits
marks 0
fates sent 0 fast 0 dropped 2 waiting 0
table 0
proxies 0
end
== timer_goes_before_the_sweep_of_its_moment: senders 1
param gc_thresh1 1
param gc_interval 10000
param retrans_time 10000
param mcast_solicit 1
@0 send 1 10.0.0.11 01
@10000 neigh add 10.0.0.11 lladdr 00:11:22:33:44:55 nud stale
@10001 neigh show
-- report
bucket 0 lines 5
0 0 33 send 10.0.0.11 -> waits
  solicit ffffffffffff020000000002080600010800060400010200000000020a0000020000000000000a00000b
  wait 33
1 10000 - timer 10.0.0.11 -> -
  drop 33 unresolved
2 10000 - sweep -> -
3 10000 32 add 10.0.0.11 00:11:22:33:44:55 stale -> done
4 10001 64 show -> counted 1
  entry 10.0.0.11 dev eth0 lladdr 00:11:22:33:44:55 STALE
host lines 2
1 10000 neigh op 0 3 done
2 10001 neigh op 0 4 counted 1
sender 1 items 1
1 0 inline 0 waits
marks 0
fates sent 0 fast 0 dropped 1 waiting 0
table 1
10.0.0.11 dev eth0 lladdr 00:11:22:33:44:55 STALE
proxies 0
end
== sweep_leaves_the_order_of_making: senders 1
param gc_thresh1 1
param gc_thresh2 3
param gc_thresh3 3
param gc_interval 10000
param gc_stale_time 8000
@0 neigh add 10.0.0.11 lladdr 00:11:22:33:44:55 nud stale
@0 neigh add 10.0.0.12 lladdr 00:11:22:33:44:55 nud stale
@0 neigh add 10.0.0.13 lladdr 00:11:22:33:44:55 nud stale
@9000 confirm 10.0.0.12
@9000 confirm 10.0.0.13
@9500 send 1 10.0.0.13 01
@10000 neigh add 10.0.0.14 lladdr 00:11:22:33:44:55 nud stale
@10001 neigh add 10.0.0.15 lladdr 00:11:22:33:44:55 nud stale
@14501 neigh add 10.0.0.16 lladdr 00:11:22:33:44:55 nud stale
@14501 neigh show
-- report
bucket 0 lines 13
0 0 32 add 10.0.0.11 00:11:22:33:44:55 stale -> done
1 0 64 add 10.0.0.12 00:11:22:33:44:55 stale -> done
2 0 96 add 10.0.0.13 00:11:22:33:44:55 stale -> done
3 9000 128 confirm 10.0.0.12 -> done
4 9000 160 confirm 10.0.0.13 -> done
5 9500 33 send 10.0.0.13 -> sent
  tx 33 001122334455020000000002080001
6 10000 - sweep -> -
7 10000 192 add 10.0.0.14 00:11:22:33:44:55 stale -> done
8 10001 - collect 10.0.0.12 -> -
9 10001 224 add 10.0.0.15 00:11:22:33:44:55 stale -> done
10 14500 - timer 10.0.0.13 -> -
  solicit 001122334455020000000002080600010800060400010200000000020a0000020000000000000a00000d
11 14501 256 add 10.0.0.16 00:11:22:33:44:55 stale -> full 3
12 14501 288 show -> counted 3
  entry 10.0.0.13 dev eth0 lladdr 00:11:22:33:44:55 PROBE
  entry 10.0.0.14 dev eth0 lladdr 00:11:22:33:44:55 STALE
  entry 10.0.0.15 dev eth0 lladdr 00:11:22:33:44:55 STALE
host lines 9
1 0 neigh op 0 0 done
2 0 neigh op 0 1 done
3 0 neigh op 0 2 done
4 9000 neigh op 0 3 done
5 9000 neigh op 0 4 done
6 10000 neigh op 0 7 done
7 10001 neigh op 0 9 done
8 14501 neigh op 0 11 full 3
9 14501 neigh op 0 12 counted 3
sender 1 items 1
1 9500 inline 5 sent
marks 0
fates sent 1 fast 0 dropped 0 waiting 0
table 3
10.0.0.13 dev eth0 lladdr 00:11:22:33:44:55 PROBE
10.0.0.14 dev eth0 lladdr 00:11:22:33:44:55 STALE
10.0.0.15 dev eth0 lladdr 00:11:22:33:44:55 STALE
proxies 0
end
== sweeps_stand_at_every_multiple: senders 1
param gc_interval 20000
@20000 neigh show
@39999 neigh add 10.0.0.1 lladdr 00:11:22:33:44:55
@80001 neigh show
-- report
bucket 0 lines 7
0 20000 - sweep -> -
1 20000 32 show -> counted 0
2 39999 64 add 10.0.0.1 00:11:22:33:44:55 permanent -> done
3 40000 - sweep -> -
4 60000 - sweep -> -
5 80000 - sweep -> -
6 80001 96 show -> counted 1
  entry 10.0.0.1 dev eth0 lladdr 00:11:22:33:44:55 PERMANENT
host lines 3
1 20000 neigh op 0 1 counted 0
2 39999 neigh op 0 2 done
3 80001 neigh op 0 6 counted 1
sender 1 items 0
marks 0
fates sent 0 fast 0 dropped 0 waiting 0
table 1
10.0.0.1 dev eth0 lladdr 00:11:22:33:44:55 PERMANENT
proxies 0
end
";
