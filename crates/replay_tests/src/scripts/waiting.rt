//! Scripts of packets that wait or are dropped. The table is cut as `scripts.rt` says.

pub fn table() -> &'static str {
    TABLE
}

const TABLE: &str = "\
== unresolved_after_three_probes: senders 1
param unres_qlen_bytes 800
@0 send 1 10.0.0.1 01
@0 send 1 10.0.0.1 02
@0 send 1 10.0.0.1 03
@0 send 1 10.0.0.1 04
@4000 neigh show
-- report
bucket 0 lines 8
0 0 33 send 10.0.0.1 -> waits
  solicit ffffffffffff020000000002080600010800060400010200000000020a0000020000000000000a000001
  wait 33
1 0 65 send 10.0.0.1 -> waits
  wait 65
2 0 97 send 10.0.0.1 -> waits
  wait 97
3 0 129 send 10.0.0.1 -> waits dropping 1
  drop 33 queuefull
  wait 129
4 1000 - timer 10.0.0.1 -> -
  solicit ffffffffffff020000000002080600010800060400010200000000020a0000020000000000000a000001
5 2000 - timer 10.0.0.1 -> -
  solicit ffffffffffff020000000002080600010800060400010200000000020a0000020000000000000a000001
6 3000 - timer 10.0.0.1 -> -
  drop 65 unresolved
  drop 97 unresolved
  drop 129 unresolved
7 4000 32 show -> counted 1
  entry 10.0.0.1 dev eth0 FAILED
host lines 1
1 4000 neigh op 0 7 counted 1
sender 1 items 4
1 0 inline 0 waits
2 0 inline 1 waits
3 0 inline 2 waits
4 0 inline 3 waits dropping 1
marks 0
fates sent 0 fast 0 dropped 4 waiting 0
table 1
10.0.0.1 dev eth0 FAILED
proxies 0
end
== packet_waits_at_the_end: senders 1
@0 send 1 10.0.0.1 01
-- report
bucket 0 lines 1
0 0 33 send 10.0.0.1 -> waits
  solicit ffffffffffff020000000002080600010800060400010200000000020a0000020000000000000a000001
  wait 33
host lines 0
sender 1 items 1
1 0 inline 0 waits
marks 0
fates sent 0 fast 0 dropped 0 waiting 1
table 1
10.0.0.1 dev eth0 INCOMPLETE
proxies 0
end
== no_probes_allowed: senders 1
param mcast_solicit 0
@0 send 1 10.0.0.1 01
-- report
bucket 0 lines 1
0 0 33 send 10.0.0.1 -> noprobes
  drop 33 noprobes
host lines 0
sender 1 items 1
1 0 inline 0 noprobes
marks 0
fates sent 0 fast 0 dropped 1 waiting 0
table 1
10.0.0.1 dev eth0 FAILED
proxies 0
end
== failed_entry_allows_no_probe_either: senders 1
param mcast_solicit 0
param ucast_solicit 0
@0 neigh add 10.0.0.1 lladdr 00:11:22:33:44:55 nud stale
@0 send 1 10.0.0.1 01
@5000 send 1 10.0.0.1 02
@5000 send 1 10.0.0.3 03
@5001 send 1 10.0.0.3 04
-- report
bucket 0 lines 6
0 0 32 add 10.0.0.1 00:11:22:33:44:55 stale -> done
1 0 33 send 10.0.0.1 -> sent
  tx 33 001122334455020000000002080001
2 5000 - timer 10.0.0.1 -> -
3 5000 65 send 10.0.0.1 -> noprobes
  drop 65 noprobes
4 5000 97 send 10.0.0.3 -> noprobes
  drop 97 noprobes
5 5001 129 send 10.0.0.3 -> noprobes
  drop 129 noprobes
host lines 1
1 0 neigh op 0 0 done
sender 1 items 4
1 0 inline 1 sent
2 5000 inline 3 noprobes
3 5000 inline 4 noprobes
4 5001 inline 5 noprobes
marks 0
fates sent 1 fast 0 dropped 3 waiting 0
table 2
10.0.0.1 dev eth0 FAILED
10.0.0.3 dev eth0 FAILED
proxies 0
end
== one_group_probe_and_short_retrans_time: senders 1
param mcast_solicit 1
param retrans_time 10
@0 send 1 10.0.0.1 01
@9 send 1 10.0.0.1 02
@10 send 1 10.0.0.1 03
-- report
bucket 0 lines 4
0 0 33 send 10.0.0.1 -> waits
  solicit ffffffffffff020000000002080600010800060400010200000000020a0000020000000000000a000001
  wait 33
1 9 65 send 10.0.0.1 -> waits
  wait 65
2 10 - timer 10.0.0.1 -> -
  drop 33 unresolved
  drop 65 unresolved
3 10 97 send 10.0.0.1 -> waits
  solicit ffffffffffff020000000002080600010800060400010200000000020a0000020000000000000a000001
  wait 97
host lines 0
sender 1 items 3
1 0 inline 0 waits
2 9 inline 1 waits
3 10 inline 3 waits
marks 0
fates sent 0 fast 0 dropped 2 waiting 1
table 1
10.0.0.1 dev eth0 INCOMPLETE
proxies 0
end
== timer_before_a_send_at_its_due: senders 1
@0 send 1 10.0.0.1 01
@3000 send 1 10.0.0.1 02
-- report
bucket 0 lines 5
0 0 33 send 10.0.0.1 -> waits
  solicit ffffffffffff020000000002080600010800060400010200000000020a0000020000000000000a000001
  wait 33
1 1000 - timer 10.0.0.1 -> -
  solicit ffffffffffff020000000002080600010800060400010200000000020a0000020000000000000a000001
2 2000 - timer 10.0.0.1 -> -
  solicit ffffffffffff020000000002080600010800060400010200000000020a0000020000000000000a000001
3 3000 - timer 10.0.0.1 -> -
  drop 33 unresolved
4 3000 65 send 10.0.0.1 -> waits
  solicit ffffffffffff020000000002080600010800060400010200000000020a0000020000000000000a000001
  wait 65
host lines 0
sender 1 items 2
1 0 inline 0 waits
2 3000 inline 4 waits
marks 0
fates sent 0 fast 0 dropped 1 waiting 1
table 1
10.0.0.1 dev eth0 INCOMPLETE
proxies 0
end
== failed_entry_is_asked_for_again: senders 1
@0 send 1 10.0.0.1 01
@3500 confirm 10.0.0.1
@3500 send 1 10.0.0.1 02
@6500 neigh show
-- report
bucket 0 lines 10
0 0 33 send 10.0.0.1 -> waits
  solicit ffffffffffff020000000002080600010800060400010200000000020a0000020000000000000a000001
  wait 33
1 1000 - timer 10.0.0.1 -> -
  solicit ffffffffffff020000000002080600010800060400010200000000020a0000020000000000000a000001
2 2000 - timer 10.0.0.1 -> -
  solicit ffffffffffff020000000002080600010800060400010200000000020a0000020000000000000a000001
3 3000 - timer 10.0.0.1 -> -
  drop 33 unresolved
4 3500 32 confirm 10.0.0.1 -> ignored
5 3500 65 send 10.0.0.1 -> waits
  solicit ffffffffffff020000000002080600010800060400010200000000020a0000020000000000000a000001
  wait 65
6 4500 - timer 10.0.0.1 -> -
  solicit ffffffffffff020000000002080600010800060400010200000000020a0000020000000000000a000001
7 5500 - timer 10.0.0.1 -> -
  solicit ffffffffffff020000000002080600010800060400010200000000020a0000020000000000000a000001
8 6500 - timer 10.0.0.1 -> -
  drop 65 unresolved
9 6500 64 show -> counted 1
  entry 10.0.0.1 dev eth0 FAILED
host lines 2
1 3500 neigh op 0 4 ignored
2 6500 neigh op 0 9 counted 1
sender 1 items 2
1 0 inline 0 waits
2 3500 inline 5 waits
marks 0
fates sent 0 fast 0 dropped 2 waiting 0
table 1
10.0.0.1 dev eth0 FAILED
proxies 0
end
== room_for_one_keeps_the_newest: senders 1
param unres_qlen_bytes 513
@0 send 1 10.0.0.1 01
@1 send 1 10.0.0.1 02
@1 send 1 10.0.0.1 03
@2 neigh change 10.0.0.1 lladdr 00:11:22:33:44:55 nud reachable
-- report
bucket 0 lines 4
0 0 33 send 10.0.0.1 -> waits
  solicit ffffffffffff020000000002080600010800060400010200000000020a0000020000000000000a000001
  wait 33
1 1 65 send 10.0.0.1 -> waits dropping 1
  drop 33 queuefull
  wait 65
2 1 97 send 10.0.0.1 -> waits dropping 1
  drop 65 queuefull
  wait 97
3 2 32 change 10.0.0.1 00:11:22:33:44:55 reachable -> done
  tx 97 001122334455020000000002080003
host lines 1
1 2 neigh op 0 3 done
sender 1 items 3
1 0 inline 0 waits
2 1 inline 1 waits dropping 1
3 1 inline 2 waits dropping 1
marks 0
fates sent 1 fast 0 dropped 2 waiting 0
table 1
10.0.0.1 dev eth0 lladdr 00:11:22:33:44:55 REACHABLE
proxies 0
end
== room_for_five_goes_out_in_order: senders 1
param unres_qlen_bytes 1285
@0 send 1 10.0.0.1 01
@0 send 1 10.0.0.1 02
@0 send 1 10.0.0.1 03
@0 send 1 10.0.0.1 04
@0 send 1 10.0.0.1 05
@0 send 1 10.0.0.1 06
@1 neigh replace 10.0.0.1 lladdr 00:11:22:33:44:66 nud noarp
-- report
bucket 0 lines 7
0 0 33 send 10.0.0.1 -> waits
  solicit ffffffffffff020000000002080600010800060400010200000000020a0000020000000000000a000001
  wait 33
1 0 65 send 10.0.0.1 -> waits
  wait 65
2 0 97 send 10.0.0.1 -> waits
  wait 97
3 0 129 send 10.0.0.1 -> waits
  wait 129
4 0 161 send 10.0.0.1 -> waits
  wait 161
5 0 193 send 10.0.0.1 -> waits dropping 1
  drop 33 queuefull
  wait 193
6 1 32 replace 10.0.0.1 00:11:22:33:44:66 noarp -> done
  tx 65 001122334466020000000002080002
  tx 97 001122334466020000000002080003
  tx 129 001122334466020000000002080004
  tx 161 001122334466020000000002080005
  tx 193 001122334466020000000002080006
host lines 1
1 1 neigh op 0 6 done
sender 1 items 6
1 0 inline 0 waits
2 0 inline 1 waits
3 0 inline 2 waits
4 0 inline 3 waits
5 0 inline 4 waits
6 0 inline 5 waits dropping 1
marks 0
fates sent 5 fast 0 dropped 1 waiting 0
table 1
10.0.0.1 dev eth0 lladdr 00:11:22:33:44:66 NOARP
proxies 0
end
== later_parameter_line_counts: senders 1
param retrans_time 10
param retrans_time 500
@0 send 1 10.0.0.1 01
@1500 neigh show
-- report
bucket 0 lines 5
0 0 33 send 10.0.0.1 -> waits
  solicit ffffffffffff020000000002080600010800060400010200000000020a0000020000000000000a000001
  wait 33
1 500 - timer 10.0.0.1 -> -
  solicit ffffffffffff020000000002080600010800060400010200000000020a0000020000000000000a000001
2 1000 - timer 10.0.0.1 -> -
  solicit ffffffffffff020000000002080600010800060400010200000000020a0000020000000000000a000001
3 1500 - timer 10.0.0.1 -> -
  drop 33 unresolved
4 1500 32 show -> counted 1
  entry 10.0.0.1 dev eth0 FAILED
host lines 1
1 1500 neigh op 0 4 counted 1
sender 1 items 1
1 0 inline 0 waits
marks 0
fates sent 0 fast 0 dropped 1 waiting 0
table 1
10.0.0.1 dev eth0 FAILED
proxies 0
end
";
