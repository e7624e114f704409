//! One script under thresholds in each order, over several buckets. The table is cut as `cases.rt` says.

pub fn table() -> &'static str {
    TABLE
}

const TABLE: &str = "\
== thresholds_2_3_4_over_2_buckets: --script s --buckets 2
host dev eth0 lladdr 02:00:00:00:00:02 inet 10.0.0.2
param gc_thresh1 2
param gc_thresh2 3
param gc_thresh3 4
param gc_interval 10000
param gc_stale_time 10
@0 neigh add 10.0.0.11 lladdr 00:11:22:33:44:55 nud stale
@0 neigh add 10.0.0.12 lladdr 00:11:22:33:44:55 nud stale
@0 neigh add 10.0.0.13 lladdr 00:11:22:33:44:77 nud permanent
@0 send 1 10.0.0.14 01
@1 neigh add 10.0.0.15 lladdr 00:11:22:33:44:55 nud stale
@5000 neigh add 10.0.0.16 lladdr 00:11:22:33:44:55 nud stale
@5001 neigh add 10.0.0.17 lladdr 00:11:22:33:44:55 nud stale
@10000 neigh show
-- report
neigh 1 mode inline buckets 2 senders 1 window 50
host dev eth0 lladdr 02:00:00:00:00:02 inet 10.0.0.2
bucket 0 lines 9
0 0 64 add 10.0.0.12 00:11:22:33:44:55 stale -> done
  seen 1
1 0 33 send 10.0.0.14 -> waits
  seen 3
  solicit ffffffffffff020000000002080600010800060400010200000000020a0000020000000000000a00000e
  wait 33
2 1000 - timer 10.0.0.14 -> -
  solicit ffffffffffff020000000002080600010800060400010200000000020a0000020000000000000a00000e
3 2000 - timer 10.0.0.14 -> -
  solicit ffffffffffff020000000002080600010800060400010200000000020a0000020000000000000a00000e
4 3000 - timer 10.0.0.14 -> -
  drop 33 unresolved
5 5000 - collect 10.0.0.14 -> -
6 5000 160 add 10.0.0.16 00:11:22:33:44:55 stale -> done
  seen 4
7 10000 - sweep -> -
  seen 4
8 10000 224 show -> counted 0
bucket 1 lines 7
0 0 32 add 10.0.0.11 00:11:22:33:44:55 stale -> done
  seen 0
1 0 96 add 10.0.0.13 00:11:22:33:44:77 permanent -> done
  seen 2
2 1 128 add 10.0.0.15 00:11:22:33:44:55 stale -> full 4
  seen 4
3 5001 - collect 10.0.0.11 -> -
4 5001 192 add 10.0.0.17 00:11:22:33:44:55 stale -> done
  seen 4
5 10000 - sweep -> -
  seen 2
6 10000 224 show -> counted 1
  entry 10.0.0.13 dev eth0 lladdr 00:11:22:33:44:77 PERMANENT
host lines 7
1 0 neigh op 1 0 done
2 0 neigh op 0 0 done
3 0 neigh op 1 1 done
4 1 neigh op 1 2 full 4
5 5000 neigh op 0 6 done
6 5001 neigh op 1 4 done
7 10000 neigh op 0 8 counted 0 op 1 6 counted 1
sender 1 items 1
1 0 inline 1 waits
marks 0
fates sent 0 fast 0 dropped 1 waiting 0
table 1
10.0.0.13 dev eth0 lladdr 00:11:22:33:44:77 PERMANENT
proxies 0
end
== thresholds_2_4_3_over_4_buckets: --script s --buckets 4
host dev eth0 lladdr 02:00:00:00:00:02 inet 10.0.0.2
param gc_thresh1 2
param gc_thresh2 4
param gc_thresh3 3
param gc_interval 10000
param gc_stale_time 10
@0 neigh add 10.0.0.11 lladdr 00:11:22:33:44:55 nud stale
@0 neigh add 10.0.0.12 lladdr 00:11:22:33:44:55 nud stale
@0 neigh add 10.0.0.13 lladdr 00:11:22:33:44:77 nud permanent
@0 send 1 10.0.0.14 01
@1 neigh add 10.0.0.15 lladdr 00:11:22:33:44:55 nud stale
@5000 neigh add 10.0.0.16 lladdr 00:11:22:33:44:55 nud stale
@5001 neigh add 10.0.0.17 lladdr 00:11:22:33:44:55 nud stale
@10000 neigh show
-- report
neigh 1 mode inline buckets 4 senders 1 window 50
host dev eth0 lladdr 02:00:00:00:00:02 inet 10.0.0.2
bucket 0 lines 4
0 0 64 add 10.0.0.12 00:11:22:33:44:55 stale -> done
  seen 1
1 5000 160 add 10.0.0.16 00:11:22:33:44:55 stale -> full 3
  seen 3
2 10000 - sweep -> -
  seen 3
3 10000 224 show -> counted 0
bucket 1 lines 4
0 0 96 add 10.0.0.13 00:11:22:33:44:77 permanent -> done
  seen 2
1 5001 192 add 10.0.0.17 00:11:22:33:44:55 stale -> full 3
  seen 3
2 10000 - sweep -> -
  seen 2
3 10000 224 show -> counted 1
  entry 10.0.0.13 dev eth0 lladdr 00:11:22:33:44:77 PERMANENT
bucket 2 lines 3
0 0 33 send 10.0.0.14 -> full 3
  seen 3
  drop 33 tablefull
1 10000 - sweep -> -
  seen 2
2 10000 224 show -> counted 0
bucket 3 lines 4
0 0 32 add 10.0.0.11 00:11:22:33:44:55 stale -> done
  seen 0
1 1 128 add 10.0.0.15 00:11:22:33:44:55 stale -> full 3
  seen 3
2 10000 - sweep -> -
  seen 2
3 10000 224 show -> counted 0
host lines 7
1 0 neigh op 3 0 done
2 0 neigh op 0 0 done
3 0 neigh op 1 0 done
4 1 neigh op 3 1 full 3
5 5000 neigh op 0 1 full 3
6 5001 neigh op 1 1 full 3
7 10000 neigh op 0 3 counted 0 op 1 3 counted 1 op 2 2 counted 0 op 3 3 counted 0
sender 1 items 1
1 0 inline 0 full 3
marks 0
fates sent 0 fast 0 dropped 1 waiting 0
table 1
10.0.0.13 dev eth0 lladdr 00:11:22:33:44:77 PERMANENT
proxies 0
end
== thresholds_3_2_4_over_8_buckets: --script s --buckets 8
host dev eth0 lladdr 02:00:00:00:00:02 inet 10.0.0.2
param gc_thresh1 3
param gc_thresh2 2
param gc_thresh3 4
param gc_interval 10000
param gc_stale_time 10
@0 neigh add 10.0.0.11 lladdr 00:11:22:33:44:55 nud stale
@0 neigh add 10.0.0.12 lladdr 00:11:22:33:44:55 nud stale
@0 neigh add 10.0.0.13 lladdr 00:11:22:33:44:77 nud permanent
@0 send 1 10.0.0.14 01
@1 neigh add 10.0.0.15 lladdr 00:11:22:33:44:55 nud stale
@5000 neigh add 10.0.0.16 lladdr 00:11:22:33:44:55 nud stale
@5001 neigh add 10.0.0.17 lladdr 00:11:22:33:44:55 nud stale
@10000 neigh show
-- report
neigh 1 mode inline buckets 8 senders 1 window 50
host dev eth0 lladdr 02:00:00:00:00:02 inet 10.0.0.2
bucket 0 lines 3
0 5000 160 add 10.0.0.16 00:11:22:33:44:55 stale -> full 4
  seen 4
1 10000 - sweep -> -
  seen 4
2 10000 224 show -> counted 0
bucket 1 lines 3
0 5001 192 add 10.0.0.17 00:11:22:33:44:55 stale -> full 4
  seen 4
1 10000 - sweep -> -
  seen 4
2 10000 224 show -> counted 0
bucket 2 lines 2
0 10000 - sweep -> -
  seen 4
1 10000 224 show -> counted 0
bucket 3 lines 3
0 0 32 add 10.0.0.11 00:11:22:33:44:55 stale -> done
  seen 0
1 10000 - sweep -> -
  seen 4
2 10000 224 show -> counted 0
bucket 4 lines 3
0 0 64 add 10.0.0.12 00:11:22:33:44:55 stale -> done
  seen 1
1 10000 - sweep -> -
  seen 3
2 10000 224 show -> counted 0
bucket 5 lines 3
0 0 96 add 10.0.0.13 00:11:22:33:44:77 permanent -> done
  seen 2
1 10000 - sweep -> -
  seen 2
2 10000 224 show -> counted 1
  entry 10.0.0.13 dev eth0 lladdr 00:11:22:33:44:77 PERMANENT
bucket 6 lines 6
0 0 33 send 10.0.0.14 -> waits
  seen 3
  solicit ffffffffffff020000000002080600010800060400010200000000020a0000020000000000000a00000e
  wait 33
1 1000 - timer 10.0.0.14 -> -
  solicit ffffffffffff020000000002080600010800060400010200000000020a0000020000000000000a00000e
2 2000 - timer 10.0.0.14 -> -
  solicit ffffffffffff020000000002080600010800060400010200000000020a0000020000000000000a00000e
3 3000 - timer 10.0.0.14 -> -
  drop 33 unresolved
4 10000 - sweep -> -
  seen 2
5 10000 224 show -> counted 1
  entry 10.0.0.14 dev eth0 FAILED
bucket 7 lines 3
0 1 128 add 10.0.0.15 00:11:22:33:44:55 stale -> full 4
  seen 4
1 10000 - sweep -> -
  seen 2
2 10000 224 show -> counted 0
host lines 7
1 0 neigh op 3 0 done
2 0 neigh op 4 0 done
3 0 neigh op 5 0 done
4 1 neigh op 7 0 full 4
5 5000 neigh op 0 0 full 4
6 5001 neigh op 1 0 full 4
7 10000 neigh op 0 2 counted 0 op 1 2 counted 0 op 2 1 counted 0 op 3 2 counted 0 op 4 2 counted 0 op 5 2 counted 1 op 6 5 counted 1 op 7 2 counted 0
sender 1 items 1
1 0 inline 0 waits
marks 0
fates sent 0 fast 0 dropped 1 waiting 0
table 2
10.0.0.13 dev eth0 lladdr 00:11:22:33:44:77 PERMANENT
10.0.0.14 dev eth0 FAILED
proxies 0
end
== thresholds_3_4_2_over_2_buckets: --script s --buckets 2
host dev eth0 lladdr 02:00:00:00:00:02 inet 10.0.0.2
param gc_thresh1 3
param gc_thresh2 4
param gc_thresh3 2
param gc_interval 10000
param gc_stale_time 10
@0 neigh add 10.0.0.11 lladdr 00:11:22:33:44:55 nud stale
@0 neigh add 10.0.0.12 lladdr 00:11:22:33:44:55 nud stale
@0 neigh add 10.0.0.13 lladdr 00:11:22:33:44:77 nud permanent
@0 send 1 10.0.0.14 01
@1 neigh add 10.0.0.15 lladdr 00:11:22:33:44:55 nud stale
@5000 neigh add 10.0.0.16 lladdr 00:11:22:33:44:55 nud stale
@5001 neigh add 10.0.0.17 lladdr 00:11:22:33:44:55 nud stale
@10000 neigh show
-- report
neigh 1 mode inline buckets 2 senders 1 window 50
host dev eth0 lladdr 02:00:00:00:00:02 inet 10.0.0.2
bucket 0 lines 5
0 0 64 add 10.0.0.12 00:11:22:33:44:55 stale -> done
  seen 1
1 0 33 send 10.0.0.14 -> full 2
  seen 2
  drop 33 tablefull
2 5000 160 add 10.0.0.16 00:11:22:33:44:55 stale -> full 2
  seen 2
3 10000 - sweep -> -
  seen 2
4 10000 224 show -> counted 1
  entry 10.0.0.12 dev eth0 lladdr 00:11:22:33:44:55 STALE
bucket 1 lines 6
0 0 32 add 10.0.0.11 00:11:22:33:44:55 stale -> done
  seen 0
1 0 96 add 10.0.0.13 00:11:22:33:44:77 permanent -> full 2
  seen 2
2 1 128 add 10.0.0.15 00:11:22:33:44:55 stale -> full 2
  seen 2
3 5001 192 add 10.0.0.17 00:11:22:33:44:55 stale -> full 2
  seen 2
4 10000 - sweep -> -
  seen 2
5 10000 224 show -> counted 1
  entry 10.0.0.11 dev eth0 lladdr 00:11:22:33:44:55 STALE
host lines 7
1 0 neigh op 1 0 done
2 0 neigh op 0 0 done
3 0 neigh op 1 1 full 2
4 1 neigh op 1 2 full 2
5 5000 neigh op 0 2 full 2
6 5001 neigh op 1 3 full 2
7 10000 neigh op 0 4 counted 1 op 1 5 counted 1
sender 1 items 1
1 0 inline 1 full 2
marks 0
fates sent 0 fast 0 dropped 1 waiting 0
table 2
10.0.0.12 dev eth0 lladdr 00:11:22:33:44:55 STALE
10.0.0.11 dev eth0 lladdr 00:11:22:33:44:55 STALE
proxies 0
end
== thresholds_4_2_3_over_4_buckets: --script s --buckets 4
host dev eth0 lladdr 02:00:00:00:00:02 inet 10.0.0.2
param gc_thresh1 4
param gc_thresh2 2
param gc_thresh3 3
param gc_interval 10000
param gc_stale_time 10
@0 neigh add 10.0.0.11 lladdr 00:11:22:33:44:55 nud stale
@0 neigh add 10.0.0.12 lladdr 00:11:22:33:44:55 nud stale
@0 neigh add 10.0.0.13 lladdr 00:11:22:33:44:77 nud permanent
@0 send 1 10.0.0.14 01
@1 neigh add 10.0.0.15 lladdr 00:11:22:33:44:55 nud stale
@5000 neigh add 10.0.0.16 lladdr 00:11:22:33:44:55 nud stale
@5001 neigh add 10.0.0.17 lladdr 00:11:22:33:44:55 nud stale
@10000 neigh show
-- report
neigh 1 mode inline buckets 4 senders 1 window 50
host dev eth0 lladdr 02:00:00:00:00:02 inet 10.0.0.2
bucket 0 lines 4
0 0 64 add 10.0.0.12 00:11:22:33:44:55 stale -> done
  seen 1
1 5000 160 add 10.0.0.16 00:11:22:33:44:55 stale -> full 3
  seen 3
2 10000 - sweep -> -
  seen 3
3 10000 224 show -> counted 1
  entry 10.0.0.12 dev eth0 lladdr 00:11:22:33:44:55 STALE
bucket 1 lines 4
0 0 96 add 10.0.0.13 00:11:22:33:44:77 permanent -> done
  seen 2
1 5001 192 add 10.0.0.17 00:11:22:33:44:55 stale -> full 3
  seen 3
2 10000 - sweep -> -
  seen 3
3 10000 224 show -> counted 1
  entry 10.0.0.13 dev eth0 lladdr 00:11:22:33:44:77 PERMANENT
bucket 2 lines 3
0 0 33 send 10.0.0.14 -> full 3
  seen 3
  drop 33 tablefull
1 10000 - sweep -> -
  seen 3
2 10000 224 show -> counted 0
bucket 3 lines 4
0 0 32 add 10.0.0.11 00:11:22:33:44:55 stale -> done
  seen 0
1 1 128 add 10.0.0.15 00:11:22:33:44:55 stale -> full 3
  seen 3
2 10000 - sweep -> -
  seen 3
3 10000 224 show -> counted 1
  entry 10.0.0.11 dev eth0 lladdr 00:11:22:33:44:55 STALE
host lines 7
1 0 neigh op 3 0 done
2 0 neigh op 0 0 done
3 0 neigh op 1 0 done
4 1 neigh op 3 1 full 3
5 5000 neigh op 0 1 full 3
6 5001 neigh op 1 1 full 3
7 10000 neigh op 0 3 counted 1 op 1 3 counted 1 op 2 2 counted 0 op 3 3 counted 1
sender 1 items 1
1 0 inline 0 full 3
marks 0
fates sent 0 fast 0 dropped 1 waiting 0
table 3
10.0.0.12 dev eth0 lladdr 00:11:22:33:44:55 STALE
10.0.0.13 dev eth0 lladdr 00:11:22:33:44:77 PERMANENT
10.0.0.11 dev eth0 lladdr 00:11:22:33:44:55 STALE
proxies 0
end
== thresholds_4_3_2_over_8_buckets: --script s --buckets 8
host dev eth0 lladdr 02:00:00:00:00:02 inet 10.0.0.2
param gc_thresh1 4
param gc_thresh2 3
param gc_thresh3 2
param gc_interval 10000
param gc_stale_time 10
@0 neigh add 10.0.0.11 lladdr 00:11:22:33:44:55 nud stale
@0 neigh add 10.0.0.12 lladdr 00:11:22:33:44:55 nud stale
@0 neigh add 10.0.0.13 lladdr 00:11:22:33:44:77 nud permanent
@0 send 1 10.0.0.14 01
@1 neigh add 10.0.0.15 lladdr 00:11:22:33:44:55 nud stale
@5000 neigh add 10.0.0.16 lladdr 00:11:22:33:44:55 nud stale
@5001 neigh add 10.0.0.17 lladdr 00:11:22:33:44:55 nud stale
@10000 neigh show
-- report
neigh 1 mode inline buckets 8 senders 1 window 50
host dev eth0 lladdr 02:00:00:00:00:02 inet 10.0.0.2
bucket 0 lines 3
0 5000 160 add 10.0.0.16 00:11:22:33:44:55 stale -> full 2
  seen 2
1 10000 - sweep -> -
  seen 2
2 10000 224 show -> counted 0
bucket 1 lines 3
0 5001 192 add 10.0.0.17 00:11:22:33:44:55 stale -> full 2
  seen 2
1 10000 - sweep -> -
  seen 2
2 10000 224 show -> counted 0
bucket 2 lines 2
0 10000 - sweep -> -
  seen 2
1 10000 224 show -> counted 0
bucket 3 lines 3
0 0 32 add 10.0.0.11 00:11:22:33:44:55 stale -> done
  seen 0
1 10000 - sweep -> -
  seen 2
2 10000 224 show -> counted 1
  entry 10.0.0.11 dev eth0 lladdr 00:11:22:33:44:55 STALE
bucket 4 lines 3
0 0 64 add 10.0.0.12 00:11:22:33:44:55 stale -> done
  seen 1
1 10000 - sweep -> -
  seen 2
2 10000 224 show -> counted 1
  entry 10.0.0.12 dev eth0 lladdr 00:11:22:33:44:55 STALE
bucket 5 lines 3
0 0 96 add 10.0.0.13 00:11:22:33:44:77 permanent -> full 2
  seen 2
1 10000 - sweep -> -
  seen 2
2 10000 224 show -> counted 0
bucket 6 lines 3
0 0 33 send 10.0.0.14 -> full 2
  seen 2
  drop 33 tablefull
1 10000 - sweep -> -
  seen 2
2 10000 224 show -> counted 0
bucket 7 lines 3
0 1 128 add 10.0.0.15 00:11:22:33:44:55 stale -> full 2
  seen 2
1 10000 - sweep -> -
  seen 2
2 10000 224 show -> counted 0
host lines 7
1 0 neigh op 3 0 done
2 0 neigh op 4 0 done
3 0 neigh op 5 0 full 2
4 1 neigh op 7 0 full 2
5 5000 neigh op 0 0 full 2
6 5001 neigh op 1 0 full 2
7 10000 neigh op 0 2 counted 0 op 1 2 counted 0 op 2 1 counted 0 op 3 2 counted 1 op 4 2 counted 1 op 5 2 counted 0 op 6 2 counted 0 op 7 2 counted 0
sender 1 items 1
1 0 inline 0 full 2
marks 0
fates sent 0 fast 0 dropped 1 waiting 0
table 2
10.0.0.11 dev eth0 lladdr 00:11:22:33:44:55 STALE
10.0.0.12 dev eth0 lladdr 00:11:22:33:44:55 STALE
proxies 0
end
";
