//! Captures of hosts that ask and answer by ARP. The table is cut as `cases.rt` says.

pub fn table() -> &'static str {
    TABLE
}

const TABLE: &str = "\
== request_is_answered_and_learnt: --script s --capture c
host dev eth0 lladdr 02:00:00:00:00:02 inet 10.0.0.2
-- records
0 ffffffffffff001122334455080600010800060400010011223344550a0000070000000000000a000002000000000000000000000000000000000000
-- report
neigh 1 mode inline buckets 1 senders 1 window 50
host dev eth0 lladdr 02:00:00:00:00:02 inet 10.0.0.2
bucket 0 lines 1
0 0 32 arp 10.0.0.7 00:11:22:33:44:55 make stale -> done
host lines 1
1 0 frame arp tx 001122334455020000000002080600010800060400020200000000020a0000020011223344550a000007 op 0 0 done
sender 1 items 0
marks 0
fates sent 0 fast 0 dropped 0 waiting 0
table 1
10.0.0.7 dev eth0 lladdr 00:11:22:33:44:55 STALE
proxies 0
end
== locktime_holds_the_address: --script s --capture c
host dev eth0 lladdr 02:00:00:00:00:02 inet 10.0.0.2
@0 neigh add 10.0.0.1 lladdr 00:11:22:33:44:55 nud stale
-- records
0 0200000000020011223344550800
1000 020000000002001122334466080600010800060400020011223344660a0000010200000000020a000002
1001 020000000002001122334466080600010800060400020011223344660a0000010200000000020a000002
-- report
neigh 1 mode inline buckets 1 senders 1 window 50
host dev eth0 lladdr 02:00:00:00:00:02 inet 10.0.0.2
bucket 0 lines 3
0 0 32 add 10.0.0.1 00:11:22:33:44:55 stale -> done
1 1000 96 arp 10.0.0.1 00:11:22:33:44:66 keep reachable -> done
2 1001 128 arp 10.0.0.1 00:11:22:33:44:66 keep reachable -> done
host lines 4
1 0 neigh op 0 0 done
2 0 frame other
3 1000 frame arp op 0 1 done
4 1001 frame arp op 0 2 done
sender 1 items 0
marks 0
fates sent 0 fast 0 dropped 0 waiting 0
table 1
10.0.0.1 dev eth0 lladdr 00:11:22:33:44:66 REACHABLE
proxies 0
end
== delay_then_unicast_probe: --script s --capture c
host dev eth0 lladdr 02:00:00:00:00:02 inet 10.0.0.2
@0 neigh add 10.0.0.1 lladdr 00:11:22:33:44:55 nud stale
@0 send 1 10.0.0.1 4500
-- records
0 0200000000020011223344550800
5500 020000000002001122334455080600010800060400020011223344550a0000010200000000020a000002
-- report
neigh 1 mode inline buckets 1 senders 1 window 50
host dev eth0 lladdr 02:00:00:00:00:02 inet 10.0.0.2
bucket 0 lines 4
0 0 32 add 10.0.0.1 00:11:22:33:44:55 stale -> done
1 0 33 send 10.0.0.1 -> sent
  tx 33 00112233445502000000000208004500
2 5000 - timer 10.0.0.1 -> -
  solicit 001122334455020000000002080600010800060400010200000000020a0000020000000000000a000001
3 5500 96 arp 10.0.0.1 00:11:22:33:44:55 keep reachable -> done
host lines 3
1 0 neigh op 0 0 done
2 0 frame other
3 5500 frame arp op 0 3 done
sender 1 items 1
1 0 inline 1 sent
marks 0
fates sent 1 fast 0 dropped 0 waiting 0
table 1
10.0.0.1 dev eth0 lladdr 00:11:22:33:44:55 REACHABLE
proxies 0
end
== reply_sends_what_waits: --script s --capture c
host dev eth0 lladdr 02:00:00:00:00:02 inet 10.0.0.2
@0 send 1 10.0.0.1 01
@0 send 1 10.0.0.1 02
@600 neigh show
-- records
0 0200000000020011223344550800
0 020000000002001122334477080600010800060400020011223344770a0000030200000000020a000002
400 ffffffffffff001122334477080600010800060400010011223344770a0000040000000000000a000001
500 020000000002001122334455080600010800060400020011223344550a0000010200000000020a000002
-- report
neigh 1 mode inline buckets 1 senders 1 window 50
host dev eth0 lladdr 02:00:00:00:00:02 inet 10.0.0.2
bucket 0 lines 6
0 0 64 arp 10.0.0.3 00:11:22:33:44:77 keep reachable -> ignored
1 0 33 send 10.0.0.1 -> waits
  solicit ffffffffffff020000000002080600010800060400010200000000020a0000020000000000000a000001
  wait 33
2 0 65 send 10.0.0.1 -> waits
  wait 65
3 400 96 arp 10.0.0.4 00:11:22:33:44:77 keep stale -> ignored
4 500 128 arp 10.0.0.1 00:11:22:33:44:55 keep reachable -> done
  tx 33 001122334455020000000002080001
  tx 65 001122334455020000000002080002
5 600 160 show -> counted 1
  entry 10.0.0.1 dev eth0 lladdr 00:11:22:33:44:55 REACHABLE
host lines 5
1 0 frame other
2 0 frame arp op 0 0 ignored
3 400 frame arp op 0 3 ignored
4 500 frame arp op 0 4 done
5 600 neigh op 0 5 counted 1
sender 1 items 2
1 0 inline 1 waits
2 0 inline 2 waits
marks 0
fates sent 2 fast 0 dropped 0 waiting 0
table 1
10.0.0.1 dev eth0 lladdr 00:11:22:33:44:55 REACHABLE
proxies 0
end
== request_sends_what_waits_and_confirms_nothing: --script s --capture c
host dev eth0 lladdr 02:00:00:00:00:02 inet 10.0.0.2
@0 send 1 10.0.0.1 01
@600 send 1 10.0.0.1 02
-- records
0 0200000000020011223344550800
500 ffffffffffff001122334455080600010800060400010011223344550a0000010000000000000a000002
-- report
neigh 1 mode inline buckets 1 senders 1 window 50
host dev eth0 lladdr 02:00:00:00:00:02 inet 10.0.0.2
bucket 0 lines 3
0 0 33 send 10.0.0.1 -> waits
  solicit ffffffffffff020000000002080600010800060400010200000000020a0000020000000000000a000001
  wait 33
1 500 64 arp 10.0.0.1 00:11:22:33:44:55 make stale -> done
  tx 33 001122334455020000000002080001
2 600 65 send 10.0.0.1 -> sent
  tx 65 001122334455020000000002080002
host lines 2
1 0 frame other
2 500 frame arp tx 001122334455020000000002080600010800060400020200000000020a0000020011223344550a000001 op 0 1 done
sender 1 items 2
1 0 inline 0 waits
2 600 inline 2 sent
marks 0
fates sent 2 fast 0 dropped 0 waiting 0
table 1
10.0.0.1 dev eth0 lladdr 00:11:22:33:44:55 DELAY
proxies 0
end
== broadcast_reply_is_not_solicited: --script s --capture c
host dev eth0 lladdr 02:00:00:00:00:02 inet 10.0.0.2
param locktime 10
@0 neigh add 10.0.0.1 lladdr 00:11:22:33:44:55 nud reachable
@11 neigh show
@12 neigh show
-- records
0 0200000000020011223344550800
5 ffffffffffff001122334455080600010800060400020011223344550a0000010200000000020a000002
10 ffffffffffff001122334466080600010800060400020011223344660a0000010200000000020a000002
11 ffffffffffff001122334466080600010800060400020011223344660a0000010200000000020a000002
12 020000000002001122334466080600010800060400020011223344660a0000010200000000020a000002
-- report
neigh 1 mode inline buckets 1 senders 1 window 50
host dev eth0 lladdr 02:00:00:00:00:02 inet 10.0.0.2
bucket 0 lines 7
0 0 32 add 10.0.0.1 00:11:22:33:44:55 reachable -> done
1 5 96 arp 10.0.0.1 00:11:22:33:44:55 keep stale -> done
2 10 128 arp 10.0.0.1 00:11:22:33:44:66 keep stale -> done
3 11 160 show -> counted 1
  entry 10.0.0.1 dev eth0 lladdr 00:11:22:33:44:55 REACHABLE
4 11 192 arp 10.0.0.1 00:11:22:33:44:66 keep stale -> done
5 12 224 show -> counted 1
  entry 10.0.0.1 dev eth0 lladdr 00:11:22:33:44:66 STALE
6 12 256 arp 10.0.0.1 00:11:22:33:44:66 keep reachable -> done
host lines 8
1 0 neigh op 0 0 done
2 0 frame other
3 5 frame arp op 0 1 done
4 10 frame arp op 0 2 done
5 11 neigh op 0 3 counted 1
6 11 frame arp op 0 4 done
7 12 neigh op 0 5 counted 1
8 12 frame arp op 0 6 done
sender 1 items 0
marks 0
fates sent 0 fast 0 dropped 0 waiting 0
table 1
10.0.0.1 dev eth0 lladdr 00:11:22:33:44:66 REACHABLE
proxies 0
end
== script_lines_go_before_records: --script s --capture c
host dev eth0 lladdr 02:00:00:00:00:02 inet 10.0.0.2
@0 send 1 10.0.0.7 01
@0 neigh add 10.0.0.1 lladdr 00:11:22:33:44:55
@0 neigh show
-- records
0 ffffffffffff001122334466080600010800060400010011223344660a0000070000000000000a000002
0 020000000002001122334466080600010800060400020011223344660a0000010200000000020a000002
-- report
neigh 1 mode inline buckets 1 senders 1 window 50
host dev eth0 lladdr 02:00:00:00:00:02 inet 10.0.0.2
bucket 0 lines 5
0 0 32 add 10.0.0.1 00:11:22:33:44:55 permanent -> done
1 0 64 show -> counted 1
  entry 10.0.0.1 dev eth0 lladdr 00:11:22:33:44:55 PERMANENT
2 0 96 arp 10.0.0.7 00:11:22:33:44:66 make stale -> done
3 0 128 arp 10.0.0.1 00:11:22:33:44:66 keep reachable -> done
4 0 33 send 10.0.0.7 -> sent
  tx 33 001122334466020000000002080001
host lines 4
1 0 neigh op 0 0 done
2 0 neigh op 0 1 counted 1
3 0 frame arp tx 001122334466020000000002080600010800060400020200000000020a0000020011223344660a000007 op 0 2 done
4 0 frame arp op 0 3 done
sender 1 items 1
1 0 inline 4 sent
marks 0
fates sent 1 fast 0 dropped 0 waiting 0
table 2
10.0.0.1 dev eth0 lladdr 00:11:22:33:44:55 PERMANENT
10.0.0.7 dev eth0 lladdr 00:11:22:33:44:66 DELAY
proxies 0
end
== full_table_answers_and_learns_nothing: --script s --capture c
host dev eth0 lladdr 02:00:00:00:00:02 inet 10.0.0.2
param gc_thresh3 1
@0 neigh add 10.0.0.1 lladdr 00:11:22:33:44:55 nud permanent
-- records
0 ffffffffffff001122334466080600010800060400010011223344660a0000070000000000000a000002
0 ffffffffffff001122334466080600010800060400010011223344660a0000010000000000000a000002
1 ffffffffffff001122334466080600010800060400010011223344660a0000070000000000000a000001
-- report
neigh 1 mode inline buckets 1 senders 1 window 50
host dev eth0 lladdr 02:00:00:00:00:02 inet 10.0.0.2
bucket 0 lines 4
0 0 32 add 10.0.0.1 00:11:22:33:44:55 permanent -> done
1 0 64 arp 10.0.0.7 00:11:22:33:44:66 make stale -> full 1
2 0 96 arp 10.0.0.1 00:11:22:33:44:66 make stale -> done
3 1 128 arp 10.0.0.7 00:11:22:33:44:66 keep stale -> ignored
host lines 4
1 0 neigh op 0 0 done
2 0 frame arp tx 001122334466020000000002080600010800060400020200000000020a0000020011223344660a000007 op 0 1 full 1
3 0 frame arp tx 001122334466020000000002080600010800060400020200000000020a0000020011223344660a000001 op 0 2 done
4 1 frame arp op 0 3 ignored
sender 1 items 0
marks 0
fates sent 0 fast 0 dropped 0 waiting 0
table 1
10.0.0.1 dev eth0 lladdr 00:11:22:33:44:55 PERMANENT
proxies 0
end
== frames_without_effect_have_numbers: --script s --capture c
host dev eth0 lladdr 02:00:00:00:00:02 inet 10.0.0.2
-- records
0 020000
1 ffffffffffff020000000002080600010800060400010200000000020a0000090000000000000a000002
2 0200000000990011223344550800
3 0200000000020011223344550800
4 ffffffffffff001122334455080600010800060400010011223344550a0000070000000000000a0000
5 ffffffffffff001122334455080600010800060400030011223344550a0000070000000000000a000002
6 ffffffffffff001122334455080600010800060400010011223344550a0000070000000000000a000002
-- report
neigh 1 mode inline buckets 1 senders 1 window 50
host dev eth0 lladdr 02:00:00:00:00:02 inet 10.0.0.2
bucket 0 lines 1
0 6 224 arp 10.0.0.7 00:11:22:33:44:55 make stale -> done
host lines 7
1 0 frame short
2 1 frame own
3 2 frame foreign
4 3 frame other
5 4 frame badarp
6 5 frame arp
7 6 frame arp tx 001122334455020000000002080600010800060400020200000000020a0000020011223344550a000007 op 0 0 done
sender 1 items 0
marks 0
fates sent 0 fast 0 dropped 0 waiting 0
table 1
10.0.0.7 dev eth0 lladdr 00:11:22:33:44:55 STALE
proxies 0
end
";
