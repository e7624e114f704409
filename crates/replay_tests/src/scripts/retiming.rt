//! Scripts of changes by hand that touch a timer or a confirmation. The table is cut as `scripts.rt` says.

pub fn table() -> &'static str {
    TABLE
}

const TABLE: &str = "\
== change_by_hand_stops_the_timer: senders 1
@0 neigh add 10.0.0.1 lladdr 00:11:22:33:44:55 nud reachable
@0 neigh add 10.0.0.3 lladdr 00:11:22:33:44:66 nud stale
@0 neigh add 10.0.0.4 lladdr 00:11:22:33:44:77 nud stale
@0 send 1 10.0.0.3 01
@0 send 1 10.0.0.4 02
@10 neigh change 10.0.0.1 nud permanent
@10 neigh change 10.0.0.3 nud stale
@5500 neigh change 10.0.0.4 lladdr 00:11:22:33:44:55 nud noarp
@60000 neigh show
-- report
bucket 0 lines 12
0 0 32 add 10.0.0.1 00:11:22:33:44:55 reachable -> done
1 0 64 add 10.0.0.3 00:11:22:33:44:66 stale -> done
2 0 96 add 10.0.0.4 00:11:22:33:44:77 stale -> done
3 0 33 send 10.0.0.3 -> sent
  tx 33 001122334466020000000002080001
4 0 65 send 10.0.0.4 -> sent
  tx 65 001122334477020000000002080002
5 10 128 change 10.0.0.1 - permanent -> done
6 10 160 change 10.0.0.3 - stale -> done
7 5000 - timer 10.0.0.4 -> -
  solicit 001122334477020000000002080600010800060400010200000000020a0000020000000000000a000004
8 5500 192 change 10.0.0.4 00:11:22:33:44:55 noarp -> done
9 30000 - sweep -> -
10 60000 - sweep -> -
11 60000 224 show -> counted 3
  entry 10.0.0.1 dev eth0 lladdr 00:11:22:33:44:55 PERMANENT
  entry 10.0.0.3 dev eth0 lladdr 00:11:22:33:44:66 STALE
  entry 10.0.0.4 dev eth0 lladdr 00:11:22:33:44:55 NOARP
host lines 7
1 0 neigh op 0 0 done
2 0 neigh op 0 1 done
3 0 neigh op 0 2 done
4 10 neigh op 0 5 done
5 10 neigh op 0 6 done
6 5500 neigh op 0 8 done
7 60000 neigh op 0 11 counted 3
sender 1 items 2
1 0 inline 3 sent
2 0 inline 4 sent
marks 0
fates sent 2 fast 0 dropped 0 waiting 0
table 3
10.0.0.1 dev eth0 lladdr 00:11:22:33:44:55 PERMANENT
10.0.0.3 dev eth0 lladdr 00:11:22:33:44:66 STALE
10.0.0.4 dev eth0 lladdr 00:11:22:33:44:55 NOARP
proxies 0
end
== reachable_by_hand_starts_anew: senders 1
@0 neigh add 10.0.0.1 lladdr 00:11:22:33:44:55 nud stale
@0 send 1 10.0.0.1 01
@100 neigh change 10.0.0.1 nud reachable
@200 neigh change 10.0.0.1 lladdr 00:11:22:33:44:66 nud reachable
@300 neigh replace 10.0.0.1 lladdr 00:11:22:33:44:66 nud reachable
@30300 neigh show
-- report
bucket 0 lines 8
0 0 32 add 10.0.0.1 00:11:22:33:44:55 stale -> done
1 0 33 send 10.0.0.1 -> sent
  tx 33 001122334455020000000002080001
2 100 64 change 10.0.0.1 - reachable -> done
3 200 96 change 10.0.0.1 00:11:22:33:44:66 reachable -> done
4 300 128 replace 10.0.0.1 00:11:22:33:44:66 reachable -> done
5 30000 - sweep -> -
6 30300 - timer 10.0.0.1 -> -
7 30300 160 show -> counted 1
  entry 10.0.0.1 dev eth0 lladdr 00:11:22:33:44:66 REACHABLE
host lines 5
1 0 neigh op 0 0 done
2 100 neigh op 0 2 done
3 200 neigh op 0 3 done
4 300 neigh op 0 4 done
5 30300 neigh op 0 7 counted 1
sender 1 items 1
1 0 inline 1 sent
marks 0
fates sent 1 fast 0 dropped 0 waiting 0
table 1
10.0.0.1 dev eth0 lladdr 00:11:22:33:44:66 REACHABLE
proxies 0
end
== probe_ends_by_hand: senders 1
@0 neigh add 10.0.0.1 lladdr 00:11:22:33:44:55 nud stale
@0 send 1 10.0.0.1 01
@6500 neigh replace 10.0.0.1 nud reachable
@7000 send 1 10.0.0.1 02
@36510 neigh show
-- report
bucket 0 lines 10
0 0 32 add 10.0.0.1 00:11:22:33:44:55 stale -> done
1 0 33 send 10.0.0.1 -> sent
  tx 33 001122334455020000000002080001
2 5000 - timer 10.0.0.1 -> -
  solicit 001122334455020000000002080600010800060400010200000000020a0000020000000000000a000001
3 6000 - timer 10.0.0.1 -> -
  solicit 001122334455020000000002080600010800060400010200000000020a0000020000000000000a000001
4 6500 64 replace 10.0.0.1 - reachable -> done
5 7000 65 send 10.0.0.1 -> sent
  tx 65 001122334455020000000002080002
6 30000 - sweep -> -
7 36500 - timer 10.0.0.1 -> -
8 36510 - timer 10.0.0.1 -> -
9 36510 96 show -> counted 1
  entry 10.0.0.1 dev eth0 lladdr 00:11:22:33:44:55 STALE
host lines 3
1 0 neigh op 0 0 done
2 6500 neigh op 0 4 done
3 36510 neigh op 0 9 counted 1
sender 1 items 2
1 0 inline 1 sent
2 7000 inline 5 sent
marks 0
fates sent 2 fast 0 dropped 0 waiting 0
table 1
10.0.0.1 dev eth0 lladdr 00:11:22:33:44:55 STALE
proxies 0
end
== probes_are_counted_anew_behind_a_change: senders 1
param delay_first_probe_time 100
param retrans_time 100
@0 neigh add 10.0.0.1 lladdr 00:11:22:33:44:55 nud stale
@0 send 1 10.0.0.1 01
@250 neigh change 10.0.0.1 nud stale
@300 send 1 10.0.0.1 02
@700 neigh show
-- report
bucket 0 lines 11
0 0 32 add 10.0.0.1 00:11:22:33:44:55 stale -> done
1 0 33 send 10.0.0.1 -> sent
  tx 33 001122334455020000000002080001
2 100 - timer 10.0.0.1 -> -
  solicit 001122334455020000000002080600010800060400010200000000020a0000020000000000000a000001
3 200 - timer 10.0.0.1 -> -
  solicit 001122334455020000000002080600010800060400010200000000020a0000020000000000000a000001
4 250 64 change 10.0.0.1 - stale -> done
5 300 65 send 10.0.0.1 -> sent
  tx 65 001122334455020000000002080002
6 400 - timer 10.0.0.1 -> -
  solicit 001122334455020000000002080600010800060400010200000000020a0000020000000000000a000001
7 500 - timer 10.0.0.1 -> -
  solicit 001122334455020000000002080600010800060400010200000000020a0000020000000000000a000001
8 600 - timer 10.0.0.1 -> -
  solicit 001122334455020000000002080600010800060400010200000000020a0000020000000000000a000001
9 700 - timer 10.0.0.1 -> -
10 700 96 show -> counted 1
  entry 10.0.0.1 dev eth0 FAILED
host lines 3
1 0 neigh op 0 0 done
2 250 neigh op 0 4 done
3 700 neigh op 0 10 counted 1
sender 1 items 2
1 0 inline 1 sent
2 300 inline 5 sent
marks 0
fates sent 2 fast 0 dropped 0 waiting 0
table 1
10.0.0.1 dev eth0 FAILED
proxies 0
end
== another_address_clears_the_confirmation: senders 1
@0 neigh add 10.0.0.1 lladdr 00:11:22:33:44:55 nud stale
@0 neigh add 10.0.0.3 lladdr 00:11:22:33:44:55 nud stale
@5 confirm 10.0.0.1
@5 confirm 10.0.0.3
@5 neigh change 10.0.0.1 lladdr 00:11:22:33:44:66 nud stale
@5 neigh change 10.0.0.3 nud stale
@5 send 1 10.0.0.1 01
@5 send 1 10.0.0.3 02
@5005 neigh show
-- report
bucket 0 lines 11
0 0 32 add 10.0.0.1 00:11:22:33:44:55 stale -> done
1 0 64 add 10.0.0.3 00:11:22:33:44:55 stale -> done
2 5 96 confirm 10.0.0.1 -> done
3 5 128 confirm 10.0.0.3 -> done
4 5 160 change 10.0.0.1 00:11:22:33:44:66 stale -> done
5 5 192 change 10.0.0.3 - stale -> done
6 5 33 send 10.0.0.1 -> sent
  tx 33 001122334466020000000002080001
7 5 65 send 10.0.0.3 -> sent
  tx 65 001122334455020000000002080002
8 5005 - timer 10.0.0.1 -> -
  solicit 001122334466020000000002080600010800060400010200000000020a0000020000000000000a000001
9 5005 - timer 10.0.0.3 -> -
10 5005 224 show -> counted 2
  entry 10.0.0.1 dev eth0 lladdr 00:11:22:33:44:66 PROBE
  entry 10.0.0.3 dev eth0 lladdr 00:11:22:33:44:55 REACHABLE
host lines 7
1 0 neigh op 0 0 done
2 0 neigh op 0 1 done
3 5 neigh op 0 2 done
4 5 neigh op 0 3 done
5 5 neigh op 0 4 done
6 5 neigh op 0 5 done
7 5005 neigh op 0 10 counted 2
sender 1 items 2
1 5 inline 6 sent
2 5 inline 7 sent
marks 0
fates sent 2 fast 0 dropped 0 waiting 0
table 2
10.0.0.1 dev eth0 lladdr 00:11:22:33:44:66 PROBE
10.0.0.3 dev eth0 lladdr 00:11:22:33:44:55 REACHABLE
proxies 0
end
== connected_state_keeps_the_confirmation: senders 1
@0 neigh add 10.0.0.1 lladdr 00:11:22:33:44:55 nud stale
@5 confirm 10.0.0.1
@5 neigh change 10.0.0.1 lladdr 00:11:22:33:44:66 nud permanent
@5 neigh change 10.0.0.1 nud stale
@5 send 1 10.0.0.1 01
@5005 neigh show
-- report
bucket 0 lines 7
0 0 32 add 10.0.0.1 00:11:22:33:44:55 stale -> done
1 5 64 confirm 10.0.0.1 -> done
2 5 96 change 10.0.0.1 00:11:22:33:44:66 permanent -> done
3 5 128 change 10.0.0.1 - stale -> done
4 5 33 send 10.0.0.1 -> sent
  tx 33 001122334466020000000002080001
5 5005 - timer 10.0.0.1 -> -
6 5005 160 show -> counted 1
  entry 10.0.0.1 dev eth0 lladdr 00:11:22:33:44:66 REACHABLE
host lines 5
1 0 neigh op 0 0 done
2 5 neigh op 0 1 done
3 5 neigh op 0 2 done
4 5 neigh op 0 3 done
5 5005 neigh op 0 6 counted 1
sender 1 items 1
1 5 inline 4 sent
marks 0
fates sent 1 fast 0 dropped 0 waiting 0
table 1
10.0.0.1 dev eth0 lladdr 00:11:22:33:44:66 REACHABLE
proxies 0
end
";
