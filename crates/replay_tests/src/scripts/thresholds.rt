//! One script under thresholds in each order, and under equal ones. The table is cut as `scripts.rt` says.

pub fn table() -> &'static str {
    TABLE
}

const TABLE: &str = "\
== thresholds_2_3_4: senders 1
param gc_thresh1 2
param gc_thresh2 3
param gc_thresh3 4
param gc_interval 10000
param gc_stale_time 10
@0 neigh add 10.0.0.11 lladdr 00:11:22:33:44:55 nud stale
@0 neigh add 10.0.0.12 lladdr 00:11:22:33:44:66 nud stale
@0 neigh add 10.0.0.13 lladdr 00:11:22:33:44:77
@0 send 1 10.0.0.14 01
@1 neigh add 10.0.0.15 lladdr 00:11:22:33:44:55 nud stale
@5000 neigh add 10.0.0.16 lladdr 00:11:22:33:44:66 nud stale
@5001 neigh add 10.0.0.17 lladdr 00:11:22:33:44:77 nud stale
@10000 neigh show
-- report
bucket 0 lines 15
0 0 32 add 10.0.0.11 00:11:22:33:44:55 stale -> done
1 0 64 add 10.0.0.12 00:11:22:33:44:66 stale -> done
2 0 96 add 10.0.0.13 00:11:22:33:44:77 permanent -> done
3 0 33 send 10.0.0.14 -> waits
  solicit ffffffffffff020000000002080600010800060400010200000000020a0000020000000000000a00000e
  wait 33
4 1 128 add 10.0.0.15 00:11:22:33:44:55 stale -> full 4
5 1000 - timer 10.0.0.14 -> -
  solicit ffffffffffff020000000002080600010800060400010200000000020a0000020000000000000a00000e
6 2000 - timer 10.0.0.14 -> -
  solicit ffffffffffff020000000002080600010800060400010200000000020a0000020000000000000a00000e
7 3000 - timer 10.0.0.14 -> -
  drop 33 unresolved
8 5000 - collect 10.0.0.14 -> -
9 5000 160 add 10.0.0.16 00:11:22:33:44:66 stale -> done
10 5001 - collect 10.0.0.11 -> -
11 5001 - collect 10.0.0.12 -> -
12 5001 192 add 10.0.0.17 00:11:22:33:44:77 stale -> done
13 10000 - sweep -> -
14 10000 224 show -> counted 1
  entry 10.0.0.13 dev eth0 lladdr 00:11:22:33:44:77 PERMANENT
host lines 7
1 0 neigh op 0 0 done
2 0 neigh op 0 1 done
3 0 neigh op 0 2 done
4 1 neigh op 0 4 full 4
5 5000 neigh op 0 9 done
6 5001 neigh op 0 12 done
7 10000 neigh op 0 14 counted 1
sender 1 items 1
1 0 inline 3 waits
marks 0
fates sent 0 fast 0 dropped 1 waiting 0
table 1
10.0.0.13 dev eth0 lladdr 00:11:22:33:44:77 PERMANENT
proxies 0
end
== thresholds_2_4_3: senders 1
param gc_thresh1 2
param gc_thresh2 4
param gc_thresh3 3
param gc_interval 10000
param gc_stale_time 10
@0 neigh add 10.0.0.11 lladdr 00:11:22:33:44:55 nud stale
@0 neigh add 10.0.0.12 lladdr 00:11:22:33:44:66 nud stale
@0 neigh add 10.0.0.13 lladdr 00:11:22:33:44:77
@0 send 1 10.0.0.14 01
@1 neigh add 10.0.0.15 lladdr 00:11:22:33:44:55 nud stale
@5000 neigh add 10.0.0.16 lladdr 00:11:22:33:44:66 nud stale
@5001 neigh add 10.0.0.17 lladdr 00:11:22:33:44:77 nud stale
@10000 neigh show
-- report
bucket 0 lines 9
0 0 32 add 10.0.0.11 00:11:22:33:44:55 stale -> done
1 0 64 add 10.0.0.12 00:11:22:33:44:66 stale -> done
2 0 96 add 10.0.0.13 00:11:22:33:44:77 permanent -> done
3 0 33 send 10.0.0.14 -> full 3
  drop 33 tablefull
4 1 128 add 10.0.0.15 00:11:22:33:44:55 stale -> full 3
5 5000 160 add 10.0.0.16 00:11:22:33:44:66 stale -> full 3
6 5001 192 add 10.0.0.17 00:11:22:33:44:77 stale -> full 3
7 10000 - sweep -> -
8 10000 224 show -> counted 1
  entry 10.0.0.13 dev eth0 lladdr 00:11:22:33:44:77 PERMANENT
host lines 7
1 0 neigh op 0 0 done
2 0 neigh op 0 1 done
3 0 neigh op 0 2 done
4 1 neigh op 0 4 full 3
5 5000 neigh op 0 5 full 3
6 5001 neigh op 0 6 full 3
7 10000 neigh op 0 8 counted 1
sender 1 items 1
1 0 inline 3 full 3
marks 0
fates sent 0 fast 0 dropped 1 waiting 0
table 1
10.0.0.13 dev eth0 lladdr 00:11:22:33:44:77 PERMANENT
proxies 0
end
== thresholds_3_2_4: senders 1
param gc_thresh1 3
param gc_thresh2 2
param gc_thresh3 4
param gc_interval 10000
param gc_stale_time 10
@0 neigh add 10.0.0.11 lladdr 00:11:22:33:44:55 nud stale
@0 neigh add 10.0.0.12 lladdr 00:11:22:33:44:66 nud stale
@0 neigh add 10.0.0.13 lladdr 00:11:22:33:44:77
@0 send 1 10.0.0.14 01
@1 neigh add 10.0.0.15 lladdr 00:11:22:33:44:55 nud stale
@5000 neigh add 10.0.0.16 lladdr 00:11:22:33:44:66 nud stale
@5001 neigh add 10.0.0.17 lladdr 00:11:22:33:44:77 nud stale
@10000 neigh show
-- report
bucket 0 lines 15
0 0 32 add 10.0.0.11 00:11:22:33:44:55 stale -> done
1 0 64 add 10.0.0.12 00:11:22:33:44:66 stale -> done
2 0 96 add 10.0.0.13 00:11:22:33:44:77 permanent -> done
3 0 33 send 10.0.0.14 -> waits
  solicit ffffffffffff020000000002080600010800060400010200000000020a0000020000000000000a00000e
  wait 33
4 1 128 add 10.0.0.15 00:11:22:33:44:55 stale -> full 4
5 1000 - timer 10.0.0.14 -> -
  solicit ffffffffffff020000000002080600010800060400010200000000020a0000020000000000000a00000e
6 2000 - timer 10.0.0.14 -> -
  solicit ffffffffffff020000000002080600010800060400010200000000020a0000020000000000000a00000e
7 3000 - timer 10.0.0.14 -> -
  drop 33 unresolved
8 5000 - collect 10.0.0.14 -> -
9 5000 160 add 10.0.0.16 00:11:22:33:44:66 stale -> done
10 5001 - collect 10.0.0.11 -> -
11 5001 - collect 10.0.0.12 -> -
12 5001 192 add 10.0.0.17 00:11:22:33:44:77 stale -> done
13 10000 - sweep -> -
14 10000 224 show -> counted 1
  entry 10.0.0.13 dev eth0 lladdr 00:11:22:33:44:77 PERMANENT
host lines 7
1 0 neigh op 0 0 done
2 0 neigh op 0 1 done
3 0 neigh op 0 2 done
4 1 neigh op 0 4 full 4
5 5000 neigh op 0 9 done
6 5001 neigh op 0 12 done
7 10000 neigh op 0 14 counted 1
sender 1 items 1
1 0 inline 3 waits
marks 0
fates sent 0 fast 0 dropped 1 waiting 0
table 1
10.0.0.13 dev eth0 lladdr 00:11:22:33:44:77 PERMANENT
proxies 0
end
== thresholds_3_4_2: senders 1
param gc_thresh1 3
param gc_thresh2 4
param gc_thresh3 2
param gc_interval 10000
param gc_stale_time 10
@0 neigh add 10.0.0.11 lladdr 00:11:22:33:44:55 nud stale
@0 neigh add 10.0.0.12 lladdr 00:11:22:33:44:66 nud stale
@0 neigh add 10.0.0.13 lladdr 00:11:22:33:44:77
@0 send 1 10.0.0.14 01
@1 neigh add 10.0.0.15 lladdr 00:11:22:33:44:55 nud stale
@5000 neigh add 10.0.0.16 lladdr 00:11:22:33:44:66 nud stale
@5001 neigh add 10.0.0.17 lladdr 00:11:22:33:44:77 nud stale
@10000 neigh show
-- report
bucket 0 lines 9
0 0 32 add 10.0.0.11 00:11:22:33:44:55 stale -> done
1 0 64 add 10.0.0.12 00:11:22:33:44:66 stale -> done
2 0 96 add 10.0.0.13 00:11:22:33:44:77 permanent -> full 2
3 0 33 send 10.0.0.14 -> full 2
  drop 33 tablefull
4 1 128 add 10.0.0.15 00:11:22:33:44:55 stale -> full 2
5 5000 160 add 10.0.0.16 00:11:22:33:44:66 stale -> full 2
6 5001 192 add 10.0.0.17 00:11:22:33:44:77 stale -> full 2
7 10000 - sweep -> -
8 10000 224 show -> counted 2
  entry 10.0.0.11 dev eth0 lladdr 00:11:22:33:44:55 STALE
  entry 10.0.0.12 dev eth0 lladdr 00:11:22:33:44:66 STALE
host lines 7
1 0 neigh op 0 0 done
2 0 neigh op 0 1 done
3 0 neigh op 0 2 full 2
4 1 neigh op 0 4 full 2
5 5000 neigh op 0 5 full 2
6 5001 neigh op 0 6 full 2
7 10000 neigh op 0 8 counted 2
sender 1 items 1
1 0 inline 3 full 2
marks 0
fates sent 0 fast 0 dropped 1 waiting 0
table 2
10.0.0.11 dev eth0 lladdr 00:11:22:33:44:55 STALE
10.0.0.12 dev eth0 lladdr 00:11:22:33:44:66 STALE
proxies 0
end
== thresholds_4_2_3: senders 1
param gc_thresh1 4
param gc_thresh2 2
param gc_thresh3 3
param gc_interval 10000
param gc_stale_time 10
@0 neigh add 10.0.0.11 lladdr 00:11:22:33:44:55 nud stale
@0 neigh add 10.0.0.12 lladdr 00:11:22:33:44:66 nud stale
@0 neigh add 10.0.0.13 lladdr 00:11:22:33:44:77
@0 send 1 10.0.0.14 01
@1 neigh add 10.0.0.15 lladdr 00:11:22:33:44:55 nud stale
@5000 neigh add 10.0.0.16 lladdr 00:11:22:33:44:66 nud stale
@5001 neigh add 10.0.0.17 lladdr 00:11:22:33:44:77 nud stale
@10000 neigh show
-- report
bucket 0 lines 11
0 0 32 add 10.0.0.11 00:11:22:33:44:55 stale -> done
1 0 64 add 10.0.0.12 00:11:22:33:44:66 stale -> done
2 0 96 add 10.0.0.13 00:11:22:33:44:77 permanent -> done
3 0 33 send 10.0.0.14 -> full 3
  drop 33 tablefull
4 1 128 add 10.0.0.15 00:11:22:33:44:55 stale -> full 3
5 5000 160 add 10.0.0.16 00:11:22:33:44:66 stale -> full 3
6 5001 - collect 10.0.0.11 -> -
7 5001 - collect 10.0.0.12 -> -
8 5001 192 add 10.0.0.17 00:11:22:33:44:77 stale -> done
9 10000 - sweep -> -
10 10000 224 show -> counted 2
  entry 10.0.0.13 dev eth0 lladdr 00:11:22:33:44:77 PERMANENT
  entry 10.0.0.17 dev eth0 lladdr 00:11:22:33:44:77 STALE
host lines 7
1 0 neigh op 0 0 done
2 0 neigh op 0 1 done
3 0 neigh op 0 2 done
4 1 neigh op 0 4 full 3
5 5000 neigh op 0 5 full 3
6 5001 neigh op 0 8 done
7 10000 neigh op 0 10 counted 2
sender 1 items 1
1 0 inline 3 full 3
marks 0
fates sent 0 fast 0 dropped 1 waiting 0
table 2
10.0.0.13 dev eth0 lladdr 00:11:22:33:44:77 PERMANENT
10.0.0.17 dev eth0 lladdr 00:11:22:33:44:77 STALE
proxies 0
end
== thresholds_4_3_2: senders 1
param gc_thresh1 4
param gc_thresh2 3
param gc_thresh3 2
param gc_interval 10000
param gc_stale_time 10
@0 neigh add 10.0.0.11 lladdr 00:11:22:33:44:55 nud stale
@0 neigh add 10.0.0.12 lladdr 00:11:22:33:44:66 nud stale
@0 neigh add 10.0.0.13 lladdr 00:11:22:33:44:77
@0 send 1 10.0.0.14 01
@1 neigh add 10.0.0.15 lladdr 00:11:22:33:44:55 nud stale
@5000 neigh add 10.0.0.16 lladdr 00:11:22:33:44:66 nud stale
@5001 neigh add 10.0.0.17 lladdr 00:11:22:33:44:77 nud stale
@10000 neigh show
-- report
bucket 0 lines 9
0 0 32 add 10.0.0.11 00:11:22:33:44:55 stale -> done
1 0 64 add 10.0.0.12 00:11:22:33:44:66 stale -> done
2 0 96 add 10.0.0.13 00:11:22:33:44:77 permanent -> full 2
3 0 33 send 10.0.0.14 -> full 2
  drop 33 tablefull
4 1 128 add 10.0.0.15 00:11:22:33:44:55 stale -> full 2
5 5000 160 add 10.0.0.16 00:11:22:33:44:66 stale -> full 2
6 5001 192 add 10.0.0.17 00:11:22:33:44:77 stale -> full 2
7 10000 - sweep -> -
8 10000 224 show -> counted 2
  entry 10.0.0.11 dev eth0 lladdr 00:11:22:33:44:55 STALE
  entry 10.0.0.12 dev eth0 lladdr 00:11:22:33:44:66 STALE
host lines 7
1 0 neigh op 0 0 done
2 0 neigh op 0 1 done
3 0 neigh op 0 2 full 2
4 1 neigh op 0 4 full 2
5 5000 neigh op 0 5 full 2
6 5001 neigh op 0 6 full 2
7 10000 neigh op 0 8 counted 2
sender 1 items 1
1 0 inline 3 full 2
marks 0
fates sent 0 fast 0 dropped 1 waiting 0
table 2
10.0.0.11 dev eth0 lladdr 00:11:22:33:44:55 STALE
10.0.0.12 dev eth0 lladdr 00:11:22:33:44:66 STALE
proxies 0
end
== thresholds_2_2_2: senders 1
param gc_thresh1 2
param gc_thresh2 2
param gc_thresh3 2
param gc_interval 10000
param gc_stale_time 10
@0 neigh add 10.0.0.11 lladdr 00:11:22:33:44:55 nud stale
@0 neigh add 10.0.0.12 lladdr 00:11:22:33:44:66 nud stale
@0 neigh add 10.0.0.13 lladdr 00:11:22:33:44:77
@0 send 1 10.0.0.14 01
@1 neigh add 10.0.0.15 lladdr 00:11:22:33:44:55 nud stale
@5000 neigh add 10.0.0.16 lladdr 00:11:22:33:44:66 nud stale
@5001 neigh add 10.0.0.17 lladdr 00:11:22:33:44:77 nud stale
@10000 neigh show
-- report
bucket 0 lines 10
0 0 32 add 10.0.0.11 00:11:22:33:44:55 stale -> done
1 0 64 add 10.0.0.12 00:11:22:33:44:66 stale -> done
2 0 96 add 10.0.0.13 00:11:22:33:44:77 permanent -> full 2
3 0 33 send 10.0.0.14 -> full 2
  drop 33 tablefull
4 1 128 add 10.0.0.15 00:11:22:33:44:55 stale -> full 2
5 5000 160 add 10.0.0.16 00:11:22:33:44:66 stale -> full 2
6 5001 - collect 10.0.0.11 -> -
7 5001 192 add 10.0.0.17 00:11:22:33:44:77 stale -> done
8 10000 - sweep -> -
9 10000 224 show -> counted 0
host lines 7
1 0 neigh op 0 0 done
2 0 neigh op 0 1 done
3 0 neigh op 0 2 full 2
4 1 neigh op 0 4 full 2
5 5000 neigh op 0 5 full 2
6 5001 neigh op 0 7 done
7 10000 neigh op 0 9 counted 0
sender 1 items 1
1 0 inline 3 full 2
marks 0
fates sent 0 fast 0 dropped 1 waiting 0
table 0
proxies 0
end
== thresholds_4_4_4: senders 1
param gc_thresh1 4
param gc_thresh2 4
param gc_thresh3 4
param gc_interval 10000
param gc_stale_time 10
@0 neigh add 10.0.0.11 lladdr 00:11:22:33:44:55 nud stale
@0 neigh add 10.0.0.12 lladdr 00:11:22:33:44:66 nud stale
@0 neigh add 10.0.0.13 lladdr 00:11:22:33:44:77
@0 send 1 10.0.0.14 01
@1 neigh add 10.0.0.15 lladdr 00:11:22:33:44:55 nud stale
@5000 neigh add 10.0.0.16 lladdr 00:11:22:33:44:66 nud stale
@5001 neigh add 10.0.0.17 lladdr 00:11:22:33:44:77 nud stale
@10000 neigh show
-- report
bucket 0 lines 14
0 0 32 add 10.0.0.11 00:11:22:33:44:55 stale -> done
1 0 64 add 10.0.0.12 00:11:22:33:44:66 stale -> done
2 0 96 add 10.0.0.13 00:11:22:33:44:77 permanent -> done
3 0 33 send 10.0.0.14 -> waits
  solicit ffffffffffff020000000002080600010800060400010200000000020a0000020000000000000a00000e
  wait 33
4 1 128 add 10.0.0.15 00:11:22:33:44:55 stale -> full 4
5 1000 - timer 10.0.0.14 -> -
  solicit ffffffffffff020000000002080600010800060400010200000000020a0000020000000000000a00000e
6 2000 - timer 10.0.0.14 -> -
  solicit ffffffffffff020000000002080600010800060400010200000000020a0000020000000000000a00000e
7 3000 - timer 10.0.0.14 -> -
  drop 33 unresolved
8 5000 - collect 10.0.0.14 -> -
9 5000 160 add 10.0.0.16 00:11:22:33:44:66 stale -> done
10 5001 - collect 10.0.0.11 -> -
11 5001 192 add 10.0.0.17 00:11:22:33:44:77 stale -> done
12 10000 - sweep -> -
13 10000 224 show -> counted 1
  entry 10.0.0.13 dev eth0 lladdr 00:11:22:33:44:77 PERMANENT
host lines 7
1 0 neigh op 0 0 done
2 0 neigh op 0 1 done
3 0 neigh op 0 2 done
4 1 neigh op 0 4 full 4
5 5000 neigh op 0 9 done
6 5001 neigh op 0 11 done
7 10000 neigh op 0 13 counted 1
sender 1 items 1
1 0 inline 3 waits
marks 0
fates sent 0 fast 0 dropped 1 waiting 0
table 1
10.0.0.13 dev eth0 lladdr 00:11:22:33:44:77 PERMANENT
proxies 0
end
";
