//! Scripts of changing and replacing by hand. The table is cut as `scripts.rt` says.

pub fn table() -> &'static str {
    TABLE
}

const TABLE: &str = "\
== change_of_an_incomplete_entry_sends_its_packets: senders 1
@0 send 1 10.0.0.1 01
@1 send 1 10.0.0.1 02
@2 neigh change 10.0.0.1 lladdr 00:11:22:33:44:55 nud stale
@3 send 1 10.0.0.1 03
@5003 neigh show
-- report
bucket 0 lines 6
0 0 33 send 10.0.0.1 -> waits
  solicit ffffffffffff020000000002080600010800060400010200000000020a0000020000000000000a000001
  wait 33
1 1 65 send 10.0.0.1 -> waits
  wait 65
2 2 32 change 10.0.0.1 00:11:22:33:44:55 stale -> done
  tx 33 001122334455020000000002080001
  tx 65 001122334455020000000002080002
3 3 97 send 10.0.0.1 -> sent
  tx 97 001122334455020000000002080003
4 5003 - timer 10.0.0.1 -> -
  solicit 001122334455020000000002080600010800060400010200000000020a0000020000000000000a000001
5 5003 64 show -> counted 1
  entry 10.0.0.1 dev eth0 lladdr 00:11:22:33:44:55 PROBE
host lines 2
1 2 neigh op 0 2 done
2 5003 neigh op 0 5 counted 1
sender 1 items 3
1 0 inline 0 waits
2 1 inline 1 waits
3 3 inline 3 sent
marks 0
fates sent 3 fast 0 dropped 0 waiting 0
table 1
10.0.0.1 dev eth0 lladdr 00:11:22:33:44:55 PROBE
proxies 0
end
== replace_of_an_incomplete_entry_stops_its_probes: senders 1
@0 send 1 10.0.0.1 01
@500 neigh replace 10.0.0.1 lladdr 00:11:22:33:44:55
@1500 neigh show
-- report
bucket 0 lines 3
0 0 33 send 10.0.0.1 -> waits
  solicit ffffffffffff020000000002080600010800060400010200000000020a0000020000000000000a000001
  wait 33
1 500 32 replace 10.0.0.1 00:11:22:33:44:55 permanent -> done
  tx 33 001122334455020000000002080001
2 1500 64 show -> counted 1
  entry 10.0.0.1 dev eth0 lladdr 00:11:22:33:44:55 PERMANENT
host lines 2
1 500 neigh op 0 1 done
2 1500 neigh op 0 2 counted 1
sender 1 items 1
1 0 inline 0 waits
marks 0
fates sent 1 fast 0 dropped 0 waiting 0
table 1
10.0.0.1 dev eth0 lladdr 00:11:22:33:44:55 PERMANENT
proxies 0
end
== replace_and_change_of_a_failed_entry: senders 1
param mcast_solicit 1
@0 send 1 10.0.0.1 01
@0 send 1 10.0.0.3 02
@1000 neigh replace 10.0.0.1 lladdr 00:11:22:33:44:55 nud reachable
@1000 neigh change 10.0.0.3 lladdr 00:11:22:33:44:66 nud noarp
@1001 send 1 10.0.0.1 03
@1001 send 1 10.0.0.3 04
-- report
bucket 0 lines 8
0 0 33 send 10.0.0.1 -> waits
  solicit ffffffffffff020000000002080600010800060400010200000000020a0000020000000000000a000001
  wait 33
1 0 65 send 10.0.0.3 -> waits
  solicit ffffffffffff020000000002080600010800060400010200000000020a0000020000000000000a000003
  wait 65
2 1000 - timer 10.0.0.1 -> -
  drop 33 unresolved
3 1000 - timer 10.0.0.3 -> -
  drop 65 unresolved
4 1000 32 replace 10.0.0.1 00:11:22:33:44:55 reachable -> done
5 1000 64 change 10.0.0.3 00:11:22:33:44:66 noarp -> done
6 1001 97 send 10.0.0.1 -> sent
  tx 97 001122334455020000000002080003
7 1001 129 send 10.0.0.3 -> sent
  tx 129 001122334466020000000002080004
host lines 2
1 1000 neigh op 0 4 done
2 1000 neigh op 0 5 done
sender 1 items 4
1 0 inline 0 waits
2 0 inline 1 waits
3 1001 inline 6 sent
4 1001 inline 7 sent
marks 0
fates sent 2 fast 0 dropped 2 waiting 0
table 2
10.0.0.1 dev eth0 lladdr 00:11:22:33:44:55 REACHABLE
10.0.0.3 dev eth0 lladdr 00:11:22:33:44:66 NOARP
proxies 0
end
== replace_makes_and_replaces: senders 1
@0 neigh replace 10.0.0.1 lladdr 00:11:22:33:44:55 nud stale
@1 neigh replace 10.0.0.1 lladdr 00:11:22:33:44:66
@2 neigh replace 10.0.0.1 nud noarp
@3 send 1 10.0.0.1 01
-- report
bucket 0 lines 4
0 0 32 replace 10.0.0.1 00:11:22:33:44:55 stale -> done
1 1 64 replace 10.0.0.1 00:11:22:33:44:66 permanent -> done
2 2 96 replace 10.0.0.1 - noarp -> done
3 3 33 send 10.0.0.1 -> sent
  tx 33 001122334466020000000002080001
host lines 3
1 0 neigh op 0 0 done
2 1 neigh op 0 1 done
3 2 neigh op 0 2 done
sender 1 items 1
1 3 inline 3 sent
marks 0
fates sent 1 fast 0 dropped 0 waiting 0
table 1
10.0.0.1 dev eth0 lladdr 00:11:22:33:44:66 NOARP
proxies 0
end
== replace_in_delay_and_behind_a_removal: senders 1
@0 neigh add 10.0.0.1 lladdr 00:11:22:33:44:55 nud stale
@0 send 1 10.0.0.1 01
@10 neigh replace 10.0.0.1 lladdr 00:11:22:33:44:66 nud stale
@10 send 1 10.0.0.1 02
@20 neigh del 10.0.0.1
@20 neigh replace 10.0.0.1
@30 neigh replace 10.0.0.1 lladdr 00:11:22:33:44:77 nud reachable
@30030 neigh show
-- report
bucket 0 lines 10
0 0 32 add 10.0.0.1 00:11:22:33:44:55 stale -> done
1 0 33 send 10.0.0.1 -> sent
  tx 33 001122334455020000000002080001
2 10 64 replace 10.0.0.1 00:11:22:33:44:66 stale -> done
3 10 65 send 10.0.0.1 -> sent
  tx 65 001122334466020000000002080002
4 20 96 del 10.0.0.1 -> done
5 20 128 replace 10.0.0.1 - permanent -> noaddress
6 30 160 replace 10.0.0.1 00:11:22:33:44:77 reachable -> done
7 30000 - sweep -> -
8 30030 - timer 10.0.0.1 -> -
9 30030 192 show -> counted 1
  entry 10.0.0.1 dev eth0 lladdr 00:11:22:33:44:77 REACHABLE
host lines 6
1 0 neigh op 0 0 done
2 10 neigh op 0 2 done
3 20 neigh op 0 4 done
4 20 neigh op 0 5 noaddress
5 30 neigh op 0 6 done
6 30030 neigh op 0 9 counted 1
sender 1 items 2
1 0 inline 1 sent
2 10 inline 3 sent
marks 0
fates sent 2 fast 0 dropped 0 waiting 0
table 1
10.0.0.1 dev eth0 lladdr 00:11:22:33:44:77 REACHABLE
proxies 0
end
== change_without_an_address_keeps_the_old_one: senders 1
@0 neigh add 10.0.0.1 lladdr 00:11:22:33:44:55
@1 neigh change 10.0.0.1 nud reachable
@30011 neigh show
@30012 neigh change 10.0.0.1
-- report
bucket 0 lines 7
0 0 32 add 10.0.0.1 00:11:22:33:44:55 permanent -> done
1 1 64 change 10.0.0.1 - reachable -> done
2 30000 - sweep -> -
3 30001 - timer 10.0.0.1 -> -
4 30011 - timer 10.0.0.1 -> -
5 30011 96 show -> counted 1
  entry 10.0.0.1 dev eth0 lladdr 00:11:22:33:44:55 STALE
6 30012 128 change 10.0.0.1 - permanent -> done
host lines 4
1 0 neigh op 0 0 done
2 1 neigh op 0 1 done
3 30011 neigh op 0 5 counted 1
4 30012 neigh op 0 6 done
sender 1 items 0
marks 0
fates sent 0 fast 0 dropped 0 waiting 0
table 1
10.0.0.1 dev eth0 lladdr 00:11:22:33:44:55 PERMANENT
proxies 0
end
== noarp_and_permanent_change_by_hand: senders 1
@0 neigh add 10.0.0.1 lladdr 00:11:22:33:44:55 nud noarp
@0 neigh add 10.0.0.3 lladdr 00:11:22:33:44:66
@1 neigh change 10.0.0.1 lladdr 00:11:22:33:44:77 nud reachable
@1 neigh change 10.0.0.3 lladdr 00:11:22:33:44:77
@2 send 1 10.0.0.1 01
@2 send 1 10.0.0.3 02
@30001 neigh show
-- report
bucket 0 lines 9
0 0 32 add 10.0.0.1 00:11:22:33:44:55 noarp -> done
1 0 64 add 10.0.0.3 00:11:22:33:44:66 permanent -> done
2 1 96 change 10.0.0.1 00:11:22:33:44:77 reachable -> done
3 1 128 change 10.0.0.3 00:11:22:33:44:77 permanent -> done
4 2 33 send 10.0.0.1 -> sent
  tx 33 001122334477020000000002080001
5 2 65 send 10.0.0.3 -> sent
  tx 65 001122334477020000000002080002
6 30000 - sweep -> -
7 30001 - timer 10.0.0.1 -> -
8 30001 160 show -> counted 2
  entry 10.0.0.1 dev eth0 lladdr 00:11:22:33:44:77 REACHABLE
  entry 10.0.0.3 dev eth0 lladdr 00:11:22:33:44:77 PERMANENT
host lines 5
1 0 neigh op 0 0 done
2 0 neigh op 0 1 done
3 1 neigh op 0 2 done
4 1 neigh op 0 3 done
5 30001 neigh op 0 8 counted 2
sender 1 items 2
1 2 inline 4 sent
2 2 inline 5 sent
marks 0
fates sent 2 fast 0 dropped 0 waiting 0
table 2
10.0.0.1 dev eth0 lladdr 00:11:22:33:44:77 REACHABLE
10.0.0.3 dev eth0 lladdr 00:11:22:33:44:77 PERMANENT
proxies 0
end
== locktime_says_nothing_of_operations_by_hand: senders 1
param locktime 10000000
@0 neigh add 10.0.0.1 lladdr 00:11:22:33:44:55 nud stale
@1 neigh change 10.0.0.1 lladdr 00:11:22:33:44:66 nud stale
@2 neigh replace 10.0.0.1 lladdr 00:11:22:33:44:77 nud stale
@3 send 1 10.0.0.1 01
-- report
bucket 0 lines 4
0 0 32 add 10.0.0.1 00:11:22:33:44:55 stale -> done
1 1 64 change 10.0.0.1 00:11:22:33:44:66 stale -> done
2 2 96 replace 10.0.0.1 00:11:22:33:44:77 stale -> done
3 3 33 send 10.0.0.1 -> sent
  tx 33 001122334477020000000002080001
host lines 3
1 0 neigh op 0 0 done
2 1 neigh op 0 1 done
3 2 neigh op 0 2 done
sender 1 items 1
1 3 inline 3 sent
marks 0
fates sent 1 fast 0 dropped 0 waiting 0
table 1
10.0.0.1 dev eth0 lladdr 00:11:22:33:44:77 DELAY
proxies 0
end
";
