//! Scripts whose lines see the whole table of two buckets. The table is cut as `cases.rt` says.

pub fn table() -> &'static str {
    TABLE
}

const TABLE: &str = "\
== show_over_two_buckets: --script s --buckets 2
host dev eth0 lladdr 02:00:00:00:00:02 inet 10.0.0.2
@0 neigh add 10.0.0.1 lladdr 00:11:22:33:44:55
@0 neigh add 10.0.0.4 lladdr 00:11:22:33:44:66
@5 neigh show
-- report
neigh 1 mode inline buckets 2 senders 1 window 50
host dev eth0 lladdr 02:00:00:00:00:02 inet 10.0.0.2
bucket 0 lines 2
0 0 64 add 10.0.0.4 00:11:22:33:44:66 permanent -> done
  seen 1
1 5 96 show -> counted 1
  entry 10.0.0.4 dev eth0 lladdr 00:11:22:33:44:66 PERMANENT
bucket 1 lines 2
0 0 32 add 10.0.0.1 00:11:22:33:44:55 permanent -> done
  seen 0
1 5 96 show -> counted 1
  entry 10.0.0.1 dev eth0 lladdr 00:11:22:33:44:55 PERMANENT
host lines 3
1 0 neigh op 1 0 done
2 0 neigh op 0 0 done
3 5 neigh op 0 1 counted 1 op 1 1 counted 1
sender 1 items 0
marks 0
fates sent 0 fast 0 dropped 0 waiting 0
table 2
10.0.0.4 dev eth0 lladdr 00:11:22:33:44:66 PERMANENT
10.0.0.1 dev eth0 lladdr 00:11:22:33:44:55 PERMANENT
proxies 0
end
== full_by_both_buckets: --script s --buckets 2
host dev eth0 lladdr 02:00:00:00:00:02 inet 10.0.0.2
param gc_thresh1 1
param gc_thresh2 2
param gc_thresh3 3
@0 send 1 10.0.0.11 01
@0 send 1 10.0.0.12 01
@0 send 1 10.0.0.13 01
@0 send 1 10.0.0.14 01
-- report
neigh 1 mode inline buckets 2 senders 1 window 50
host dev eth0 lladdr 02:00:00:00:00:02 inet 10.0.0.2
bucket 0 lines 2
0 0 65 send 10.0.0.12 -> waits
  seen 1
  solicit ffffffffffff020000000002080600010800060400010200000000020a0000020000000000000a00000c
  wait 65
1 0 129 send 10.0.0.14 -> full 3
  seen 3
  drop 129 tablefull
bucket 1 lines 2
0 0 33 send 10.0.0.11 -> waits
  seen 0
  solicit ffffffffffff020000000002080600010800060400010200000000020a0000020000000000000a00000b
  wait 33
1 0 97 send 10.0.0.13 -> waits
  seen 2
  solicit ffffffffffff020000000002080600010800060400010200000000020a0000020000000000000a00000d
  wait 97
host lines 0
sender 1 items 4
1 0 inline 0 waits
2 0 inline 0 waits
3 0 inline 1 waits
4 0 inline 1 full 3
marks 0
fates sent 0 fast 0 dropped 1 waiting 3
table 3
10.0.0.12 dev eth0 INCOMPLETE
10.0.0.11 dev eth0 INCOMPLETE
10.0.0.13 dev eth0 INCOMPLETE
proxies 0
end
== pass_takes_its_own_entries: --script s --buckets 2
host dev eth0 lladdr 02:00:00:00:00:02 inet 10.0.0.2
param gc_thresh2 4
param gc_thresh3 9
@0 neigh add 10.0.0.11 lladdr 00:11:22:33:44:55 nud stale
@0 neigh add 10.0.0.13 lladdr 00:11:22:33:44:55 nud stale
@0 neigh add 10.0.0.12 lladdr 00:11:22:33:44:55 nud stale
@0 neigh add 10.0.0.14 lladdr 00:11:22:33:44:55 nud stale
@0 neigh add 10.0.0.16 lladdr 00:11:22:33:44:55 nud stale
@5001 neigh add 10.0.0.18 lladdr 00:11:22:33:44:55 nud stale
@5001 neigh show
-- report
neigh 1 mode inline buckets 2 senders 1 window 50
host dev eth0 lladdr 02:00:00:00:00:02 inet 10.0.0.2
bucket 0 lines 7
0 0 96 add 10.0.0.12 00:11:22:33:44:55 stale -> done
  seen 2
1 0 128 add 10.0.0.14 00:11:22:33:44:55 stale -> done
  seen 3
2 0 160 add 10.0.0.16 00:11:22:33:44:55 stale -> done
  seen 4
3 5001 - collect 10.0.0.12 -> -
4 5001 - collect 10.0.0.14 -> -
5 5001 192 add 10.0.0.18 00:11:22:33:44:55 stale -> done
  seen 5
6 5001 224 show -> counted 2
  entry 10.0.0.16 dev eth0 lladdr 00:11:22:33:44:55 STALE
  entry 10.0.0.18 dev eth0 lladdr 00:11:22:33:44:55 STALE
bucket 1 lines 3
0 0 32 add 10.0.0.11 00:11:22:33:44:55 stale -> done
  seen 0
1 0 64 add 10.0.0.13 00:11:22:33:44:55 stale -> done
  seen 1
2 5001 224 show -> counted 2
  entry 10.0.0.11 dev eth0 lladdr 00:11:22:33:44:55 STALE
  entry 10.0.0.13 dev eth0 lladdr 00:11:22:33:44:55 STALE
host lines 7
1 0 neigh op 1 0 done
2 0 neigh op 1 1 done
3 0 neigh op 0 0 done
4 0 neigh op 0 1 done
5 0 neigh op 0 2 done
6 5001 neigh op 0 5 done
7 5001 neigh op 0 6 counted 2 op 1 2 counted 2
sender 1 items 0
marks 0
fates sent 0 fast 0 dropped 0 waiting 0
table 4
10.0.0.16 dev eth0 lladdr 00:11:22:33:44:55 STALE
10.0.0.18 dev eth0 lladdr 00:11:22:33:44:55 STALE
10.0.0.11 dev eth0 lladdr 00:11:22:33:44:55 STALE
10.0.0.13 dev eth0 lladdr 00:11:22:33:44:55 STALE
proxies 0
end
== pass_of_each_bucket: --script s --buckets 2
host dev eth0 lladdr 02:00:00:00:00:02 inet 10.0.0.2
param gc_thresh2 1
param gc_thresh3 9
@1 neigh add 10.0.0.11 lladdr 00:11:22:33:44:55 nud stale
@1 neigh add 10.0.0.12 lladdr 00:11:22:33:44:55 nud stale
@5001 neigh add 10.0.0.13 lladdr 00:11:22:33:44:55 nud stale
@5002 neigh add 10.0.0.14 lladdr 00:11:22:33:44:55 nud stale
@5003 neigh add 10.0.0.15 lladdr 00:11:22:33:44:55 nud stale
@10001 neigh add 10.0.0.17 lladdr 00:11:22:33:44:55 nud stale
@10002 neigh add 10.0.0.19 lladdr 00:11:22:33:44:55 nud stale
@10002 neigh show
-- report
neigh 1 mode inline buckets 2 senders 1 window 50
host dev eth0 lladdr 02:00:00:00:00:02 inet 10.0.0.2
bucket 0 lines 4
0 1 64 add 10.0.0.12 00:11:22:33:44:55 stale -> done
  seen 1
1 5002 - collect 10.0.0.12 -> -
2 5002 128 add 10.0.0.14 00:11:22:33:44:55 stale -> done
  seen 3
3 10002 256 show -> counted 1
  entry 10.0.0.14 dev eth0 lladdr 00:11:22:33:44:55 STALE
bucket 1 lines 8
0 1 32 add 10.0.0.11 00:11:22:33:44:55 stale -> done
  seen 0
1 5001 96 add 10.0.0.13 00:11:22:33:44:55 stale -> done
  seen 2
2 5003 160 add 10.0.0.15 00:11:22:33:44:55 stale -> done
  seen 3
3 10001 192 add 10.0.0.17 00:11:22:33:44:55 stale -> done
  seen 4
4 10002 - collect 10.0.0.11 -> -
5 10002 - collect 10.0.0.13 -> -
6 10002 224 add 10.0.0.19 00:11:22:33:44:55 stale -> done
  seen 5
7 10002 256 show -> counted 3
  entry 10.0.0.15 dev eth0 lladdr 00:11:22:33:44:55 STALE
  entry 10.0.0.17 dev eth0 lladdr 00:11:22:33:44:55 STALE
  entry 10.0.0.19 dev eth0 lladdr 00:11:22:33:44:55 STALE
host lines 8
1 1 neigh op 1 0 done
2 1 neigh op 0 0 done
3 5001 neigh op 1 1 done
4 5002 neigh op 0 2 done
5 5003 neigh op 1 2 done
6 10001 neigh op 1 3 done
7 10002 neigh op 1 6 done
8 10002 neigh op 0 3 counted 1 op 1 7 counted 3
sender 1 items 0
marks 0
fates sent 0 fast 0 dropped 0 waiting 0
table 4
10.0.0.14 dev eth0 lladdr 00:11:22:33:44:55 STALE
10.0.0.15 dev eth0 lladdr 00:11:22:33:44:55 STALE
10.0.0.17 dev eth0 lladdr 00:11:22:33:44:55 STALE
10.0.0.19 dev eth0 lladdr 00:11:22:33:44:55 STALE
proxies 0
end
== full_where_the_own_bucket_is_empty: --script s --buckets 2
host dev eth0 lladdr 02:00:00:00:00:02 inet 10.0.0.2
param gc_thresh1 1
param gc_thresh2 3
param gc_thresh3 3
@0 neigh add 10.0.0.11 lladdr 00:11:22:33:44:55 nud stale
@0 neigh add 10.0.0.13 lladdr 00:11:22:33:44:55 nud stale
@0 neigh add 10.0.0.15 lladdr 00:11:22:33:44:55 nud stale
@6000 neigh add 10.0.0.12 lladdr 00:11:22:33:44:55 nud stale
@6000 neigh del 10.0.0.11
@6001 neigh add 10.0.0.12 lladdr 00:11:22:33:44:55 nud stale
@6001 neigh show
-- report
neigh 1 mode inline buckets 2 senders 1 window 50
host dev eth0 lladdr 02:00:00:00:00:02 inet 10.0.0.2
bucket 0 lines 3
0 6000 128 add 10.0.0.12 00:11:22:33:44:55 stale -> full 3
  seen 3
1 6001 192 add 10.0.0.12 00:11:22:33:44:55 stale -> done
  seen 2
2 6001 224 show -> counted 1
  entry 10.0.0.12 dev eth0 lladdr 00:11:22:33:44:55 STALE
bucket 1 lines 5
0 0 32 add 10.0.0.11 00:11:22:33:44:55 stale -> done
  seen 0
1 0 64 add 10.0.0.13 00:11:22:33:44:55 stale -> done
  seen 1
2 0 96 add 10.0.0.15 00:11:22:33:44:55 stale -> done
  seen 2
3 6000 160 del 10.0.0.11 -> done
4 6001 224 show -> counted 2
  entry 10.0.0.13 dev eth0 lladdr 00:11:22:33:44:55 STALE
  entry 10.0.0.15 dev eth0 lladdr 00:11:22:33:44:55 STALE
host lines 7
1 0 neigh op 1 0 done
2 0 neigh op 1 1 done
3 0 neigh op 1 2 done
4 6000 neigh op 0 0 full 3
5 6000 neigh op 1 3 done
6 6001 neigh op 0 1 done
7 6001 neigh op 0 2 counted 1 op 1 4 counted 2
sender 1 items 0
marks 0
fates sent 0 fast 0 dropped 0 waiting 0
table 3
10.0.0.12 dev eth0 lladdr 00:11:22:33:44:55 STALE
10.0.0.13 dev eth0 lladdr 00:11:22:33:44:55 STALE
10.0.0.15 dev eth0 lladdr 00:11:22:33:44:55 STALE
proxies 0
end
== sweep_sees_the_whole_table: --script s --buckets 2
host dev eth0 lladdr 02:00:00:00:00:02 inet 10.0.0.2
param gc_thresh1 3
param gc_interval 10000
param gc_stale_time 10
@0 neigh add 10.0.0.12 lladdr 00:11:22:33:44:55 nud stale
@0 neigh add 10.0.0.14 lladdr 00:11:22:33:44:55 nud stale
@0 neigh add 10.0.0.11 lladdr 00:11:22:33:44:66 nud stale
@10000 neigh del 10.0.0.99
@10000 neigh del 10.0.0.98
@10001 neigh show
-- report
neigh 1 mode inline buckets 2 senders 1 window 50
host dev eth0 lladdr 02:00:00:00:00:02 inet 10.0.0.2
bucket 0 lines 5
0 0 32 add 10.0.0.12 00:11:22:33:44:55 stale -> done
  seen 0
1 0 64 add 10.0.0.14 00:11:22:33:44:55 stale -> done
  seen 1
2 10000 - sweep -> -
  seen 2
3 10000 160 del 10.0.0.98 -> missing
4 10001 192 show -> counted 2
  entry 10.0.0.12 dev eth0 lladdr 00:11:22:33:44:55 STALE
  entry 10.0.0.14 dev eth0 lladdr 00:11:22:33:44:55 STALE
bucket 1 lines 4
0 0 96 add 10.0.0.11 00:11:22:33:44:66 stale -> done
  seen 2
1 10000 - sweep -> -
  seen 3
2 10000 128 del 10.0.0.99 -> missing
3 10001 192 show -> counted 0
host lines 6
1 0 neigh op 0 0 done
2 0 neigh op 0 1 done
3 0 neigh op 1 0 done
4 10000 neigh op 1 2 missing
5 10000 neigh op 0 3 missing
6 10001 neigh op 0 4 counted 2 op 1 3 counted 0
sender 1 items 0
marks 0
fates sent 0 fast 0 dropped 0 waiting 0
table 2
10.0.0.12 dev eth0 lladdr 00:11:22:33:44:55 STALE
10.0.0.14 dev eth0 lladdr 00:11:22:33:44:55 STALE
proxies 0
end
== second_sweep_sees_what_the_first_left: --script s --buckets 2
host dev eth0 lladdr 02:00:00:00:00:02 inet 10.0.0.2
param gc_thresh1 2
param gc_interval 10000
param gc_stale_time 10
@0 neigh add 10.0.0.12 lladdr 00:11:22:33:44:55 nud stale
@0 neigh add 10.0.0.11 lladdr 00:11:22:33:44:55 nud stale
@10000 neigh show
-- report
neigh 1 mode inline buckets 2 senders 1 window 50
host dev eth0 lladdr 02:00:00:00:00:02 inet 10.0.0.2
bucket 0 lines 3
0 0 32 add 10.0.0.12 00:11:22:33:44:55 stale -> done
  seen 0
1 10000 - sweep -> -
  seen 2
2 10000 96 show -> counted 0
bucket 1 lines 3
0 0 64 add 10.0.0.11 00:11:22:33:44:55 stale -> done
  seen 1
1 10000 - sweep -> -
  seen 1
2 10000 96 show -> counted 1
  entry 10.0.0.11 dev eth0 lladdr 00:11:22:33:44:55 STALE
host lines 3
1 0 neigh op 0 0 done
2 0 neigh op 1 0 done
3 10000 neigh op 0 2 counted 0 op 1 2 counted 1
sender 1 items 0
marks 0
fates sent 0 fast 0 dropped 0 waiting 0
table 1
10.0.0.11 dev eth0 lladdr 00:11:22:33:44:55 STALE
proxies 0
end
== late_sweeps_see_later_entries: --script s --buckets 2
host dev eth0 lladdr 02:00:00:00:00:02 inet 10.0.0.2
param gc_thresh1 3
param gc_interval 10000
param gc_stale_time 10
@0 neigh add 10.0.0.12 lladdr 00:11:22:33:44:55 nud stale
@25000 neigh add 10.0.0.11 lladdr 00:11:22:33:44:55 nud stale
@25001 neigh add 10.0.0.13 lladdr 00:11:22:33:44:55 nud stale
@25002 confirm 10.0.0.12
@30000 neigh show
-- report
neigh 1 mode inline buckets 2 senders 1 window 50
host dev eth0 lladdr 02:00:00:00:00:02 inet 10.0.0.2
bucket 0 lines 6
0 0 32 add 10.0.0.12 00:11:22:33:44:55 stale -> done
  seen 0
1 10000 - sweep -> -
  seen 3
2 20000 - sweep -> -
  seen 2
3 25002 128 confirm 10.0.0.12 -> ignored
4 30000 - sweep -> -
  seen 2
5 30000 160 show -> counted 0
bucket 1 lines 6
0 10000 - sweep -> -
  seen 1
1 20000 - sweep -> -
  seen 1
2 25000 64 add 10.0.0.11 00:11:22:33:44:55 stale -> done
  seen 1
3 25001 96 add 10.0.0.13 00:11:22:33:44:55 stale -> done
  seen 2
4 30000 - sweep -> -
  seen 2
5 30000 160 show -> counted 2
  entry 10.0.0.11 dev eth0 lladdr 00:11:22:33:44:55 STALE
  entry 10.0.0.13 dev eth0 lladdr 00:11:22:33:44:55 STALE
host lines 5
1 0 neigh op 0 0 done
2 25000 neigh op 1 2 done
3 25001 neigh op 1 3 done
4 25002 neigh op 0 3 ignored
5 30000 neigh op 0 5 counted 0 op 1 5 counted 2
sender 1 items 0
marks 0
fates sent 0 fast 0 dropped 0 waiting 0
table 2
10.0.0.11 dev eth0 lladdr 00:11:22:33:44:55 STALE
10.0.0.13 dev eth0 lladdr 00:11:22:33:44:55 STALE
proxies 0
end
";
