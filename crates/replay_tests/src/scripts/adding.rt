//! Scripts of adding by hand, and of operations that are refused. The table is cut as `scripts.rt` says.

pub fn table() -> &'static str {
    TABLE
}

const TABLE: &str = "\
== add_twice_del_missing_add_without_address: senders 1
@0 neigh add 10.0.0.1 lladdr 00:11:22:33:44:55
@0 neigh add 10.0.0.1 lladdr 00:11:22:33:44:55
@0 neigh del 10.0.0.9
@0 neigh add 10.0.0.8
-- report
bucket 0 lines 4
0 0 32 add 10.0.0.1 00:11:22:33:44:55 permanent -> done
1 0 64 add 10.0.0.1 00:11:22:33:44:55 permanent -> exists
2 0 96 del 10.0.0.9 -> missing
3 0 128 add 10.0.0.8 - permanent -> noaddress
host lines 4
1 0 neigh op 0 0 done
2 0 neigh op 0 1 exists
3 0 neigh op 0 2 missing
4 0 neigh op 0 3 noaddress
sender 1 items 0
marks 0
fates sent 0 fast 0 dropped 0 waiting 0
table 1
10.0.0.1 dev eth0 lladdr 00:11:22:33:44:55 PERMANENT
proxies 0
end
== add_in_each_state_and_any_order_of_options: senders 1
@0 neigh add 10.0.0.1 lladdr 00:11:22:33:44:55
@0 neigh add 10.0.0.3 nud noarp lladdr 00:11:22:33:44:66
@0 neigh add 10.0.0.4 dev eth0 nud reachable lladdr 00:11:22:33:44:77
@0 neigh add 10.0.0.5 lladdr 00:11:22:33:44:55 nud stale dev eth0
@0 neigh add 10.0.0.6 nud stale
@0 neigh show
-- report
bucket 0 lines 6
0 0 32 add 10.0.0.1 00:11:22:33:44:55 permanent -> done
1 0 64 add 10.0.0.3 00:11:22:33:44:66 noarp -> done
2 0 96 add 10.0.0.4 00:11:22:33:44:77 reachable -> done
3 0 128 add 10.0.0.5 00:11:22:33:44:55 stale -> done
4 0 160 add 10.0.0.6 - stale -> noaddress
5 0 192 show -> counted 4
  entry 10.0.0.1 dev eth0 lladdr 00:11:22:33:44:55 PERMANENT
  entry 10.0.0.3 dev eth0 lladdr 00:11:22:33:44:66 NOARP
  entry 10.0.0.4 dev eth0 lladdr 00:11:22:33:44:77 REACHABLE
  entry 10.0.0.5 dev eth0 lladdr 00:11:22:33:44:55 STALE
host lines 6
1 0 neigh op 0 0 done
2 0 neigh op 0 1 done
3 0 neigh op 0 2 done
4 0 neigh op 0 3 done
5 0 neigh op 0 4 noaddress
6 0 neigh op 0 5 counted 4
sender 1 items 0
marks 0
fates sent 0 fast 0 dropped 0 waiting 0
table 4
10.0.0.1 dev eth0 lladdr 00:11:22:33:44:55 PERMANENT
10.0.0.3 dev eth0 lladdr 00:11:22:33:44:66 NOARP
10.0.0.4 dev eth0 lladdr 00:11:22:33:44:77 REACHABLE
10.0.0.5 dev eth0 lladdr 00:11:22:33:44:55 STALE
proxies 0
end
== add_leaves_present_entries_alone: senders 1
@0 neigh add 10.0.0.3 lladdr 00:11:22:33:44:55 nud stale
@0 send 1 10.0.0.1 01
@1 neigh add 10.0.0.1 lladdr 00:11:22:33:44:66 nud reachable
@1 neigh add 10.0.0.3
@2 neigh show
@3000 neigh add 10.0.0.1 lladdr 00:11:22:33:44:66
-- report
bucket 0 lines 9
0 0 32 add 10.0.0.3 00:11:22:33:44:55 stale -> done
1 0 33 send 10.0.0.1 -> waits
  solicit ffffffffffff020000000002080600010800060400010200000000020a0000020000000000000a000001
  wait 33
2 1 64 add 10.0.0.1 00:11:22:33:44:66 reachable -> exists
3 1 96 add 10.0.0.3 - permanent -> exists
4 2 128 show -> counted 2
  entry 10.0.0.3 dev eth0 lladdr 00:11:22:33:44:55 STALE
  entry 10.0.0.1 dev eth0 INCOMPLETE
5 1000 - timer 10.0.0.1 -> -
  solicit ffffffffffff020000000002080600010800060400010200000000020a0000020000000000000a000001
6 2000 - timer 10.0.0.1 -> -
  solicit ffffffffffff020000000002080600010800060400010200000000020a0000020000000000000a000001
7 3000 - timer 10.0.0.1 -> -
  drop 33 unresolved
8 3000 160 add 10.0.0.1 00:11:22:33:44:66 permanent -> exists
host lines 5
1 0 neigh op 0 0 done
2 1 neigh op 0 2 exists
3 1 neigh op 0 3 exists
4 2 neigh op 0 4 counted 2
5 3000 neigh op 0 8 exists
sender 1 items 1
1 0 inline 1 waits
marks 0
fates sent 0 fast 0 dropped 1 waiting 0
table 2
10.0.0.3 dev eth0 lladdr 00:11:22:33:44:55 STALE
10.0.0.1 dev eth0 FAILED
proxies 0
end
== add_finds_each_other_state: senders 1
@0 neigh add 10.0.0.1 lladdr 00:11:22:33:44:55 nud stale
@0 neigh add 10.0.0.3 lladdr 00:11:22:33:44:66 nud noarp
@0 neigh add 10.0.0.4 lladdr 00:11:22:33:44:77 nud reachable
@0 send 1 10.0.0.1 01
@1 neigh add 10.0.0.1 lladdr 00:11:22:33:44:66
@1 neigh add 10.0.0.3 lladdr 00:11:22:33:44:77
@1 neigh add 10.0.0.4 lladdr 00:11:22:33:44:55 nud stale
@5500 neigh add 10.0.0.1 lladdr 00:11:22:33:44:77
@5500 neigh show
-- report
bucket 0 lines 10
0 0 32 add 10.0.0.1 00:11:22:33:44:55 stale -> done
1 0 64 add 10.0.0.3 00:11:22:33:44:66 noarp -> done
2 0 96 add 10.0.0.4 00:11:22:33:44:77 reachable -> done
3 0 33 send 10.0.0.1 -> sent
  tx 33 001122334455020000000002080001
4 1 128 add 10.0.0.1 00:11:22:33:44:66 permanent -> exists
5 1 160 add 10.0.0.3 00:11:22:33:44:77 permanent -> exists
6 1 192 add 10.0.0.4 00:11:22:33:44:55 stale -> exists
7 5000 - timer 10.0.0.1 -> -
  solicit 001122334455020000000002080600010800060400010200000000020a0000020000000000000a000001
8 5500 224 add 10.0.0.1 00:11:22:33:44:77 permanent -> exists
9 5500 256 show -> counted 3
  entry 10.0.0.1 dev eth0 lladdr 00:11:22:33:44:55 PROBE
  entry 10.0.0.3 dev eth0 lladdr 00:11:22:33:44:66 NOARP
  entry 10.0.0.4 dev eth0 lladdr 00:11:22:33:44:77 REACHABLE
host lines 8
1 0 neigh op 0 0 done
2 0 neigh op 0 1 done
3 0 neigh op 0 2 done
4 1 neigh op 0 4 exists
5 1 neigh op 0 5 exists
6 1 neigh op 0 6 exists
7 5500 neigh op 0 8 exists
8 5500 neigh op 0 9 counted 3
sender 1 items 1
1 0 inline 3 sent
marks 0
fates sent 1 fast 0 dropped 0 waiting 0
table 3
10.0.0.1 dev eth0 lladdr 00:11:22:33:44:55 PROBE
10.0.0.3 dev eth0 lladdr 00:11:22:33:44:66 NOARP
10.0.0.4 dev eth0 lladdr 00:11:22:33:44:77 REACHABLE
proxies 0
end
== add_without_address_on_a_known_key: senders 1
@0 neigh add 10.0.0.1 lladdr 00:11:22:33:44:55 nud stale
@0 neigh add 10.0.0.1
@1 neigh del 10.0.0.1
@1 neigh add 10.0.0.1
@2 neigh change 10.0.0.1 lladdr 00:11:22:33:44:66
@3 neigh add 10.0.0.1 lladdr 00:11:22:33:44:66
-- report
bucket 0 lines 6
0 0 32 add 10.0.0.1 00:11:22:33:44:55 stale -> done
1 0 64 add 10.0.0.1 - permanent -> exists
2 1 96 del 10.0.0.1 -> done
3 1 128 add 10.0.0.1 - permanent -> noaddress
4 2 160 change 10.0.0.1 00:11:22:33:44:66 permanent -> missing
5 3 192 add 10.0.0.1 00:11:22:33:44:66 permanent -> done
host lines 6
1 0 neigh op 0 0 done
2 0 neigh op 0 1 exists
3 1 neigh op 0 2 done
4 1 neigh op 0 3 noaddress
5 2 neigh op 0 4 missing
6 3 neigh op 0 5 done
sender 1 items 0
marks 0
fates sent 0 fast 0 dropped 0 waiting 0
table 1
10.0.0.1 dev eth0 lladdr 00:11:22:33:44:66 PERMANENT
proxies 0
end
== change_and_replace_want_an_address: senders 1
@0 neigh change 10.0.0.1 nud stale
@0 neigh replace 10.0.0.1 nud stale
@0 send 1 10.0.0.1 01
@1 neigh change 10.0.0.1 nud stale
@1 neigh replace 10.0.0.1
@3000 neigh change 10.0.0.1
@3000 neigh replace 10.0.0.1 nud reachable
-- report
bucket 0 lines 10
0 0 32 change 10.0.0.1 - stale -> missing
1 0 64 replace 10.0.0.1 - stale -> noaddress
2 0 33 send 10.0.0.1 -> waits
  solicit ffffffffffff020000000002080600010800060400010200000000020a0000020000000000000a000001
  wait 33
3 1 96 change 10.0.0.1 - stale -> noaddress
4 1 128 replace 10.0.0.1 - permanent -> noaddress
5 1000 - timer 10.0.0.1 -> -
  solicit ffffffffffff020000000002080600010800060400010200000000020a0000020000000000000a000001
6 2000 - timer 10.0.0.1 -> -
  solicit ffffffffffff020000000002080600010800060400010200000000020a0000020000000000000a000001
7 3000 - timer 10.0.0.1 -> -
  drop 33 unresolved
8 3000 160 change 10.0.0.1 - permanent -> noaddress
9 3000 192 replace 10.0.0.1 - reachable -> noaddress
host lines 6
1 0 neigh op 0 0 missing
2 0 neigh op 0 1 noaddress
3 1 neigh op 0 3 noaddress
4 1 neigh op 0 4 noaddress
5 3000 neigh op 0 8 noaddress
6 3000 neigh op 0 9 noaddress
sender 1 items 1
1 0 inline 2 waits
marks 0
fates sent 0 fast 0 dropped 1 waiting 0
table 1
10.0.0.1 dev eth0 FAILED
proxies 0
end
== refused_operations_give_no_rank: senders 1
@0 neigh change 10.0.0.7 lladdr 00:11:22:33:44:55
@0 neigh replace 10.0.0.7
@0 neigh add 10.0.0.7
@0 neigh del 10.0.0.7
@0 confirm 10.0.0.7
@0 neigh add 10.0.0.5 lladdr 00:11:22:33:44:55
@0 neigh add 10.0.0.7 lladdr 00:11:22:33:44:66
@0 neigh show
-- report
bucket 0 lines 8
0 0 32 change 10.0.0.7 00:11:22:33:44:55 permanent -> missing
1 0 64 replace 10.0.0.7 - permanent -> noaddress
2 0 96 add 10.0.0.7 - permanent -> noaddress
3 0 128 del 10.0.0.7 -> missing
4 0 160 confirm 10.0.0.7 -> ignored
5 0 192 add 10.0.0.5 00:11:22:33:44:55 permanent -> done
6 0 224 add 10.0.0.7 00:11:22:33:44:66 permanent -> done
7 0 256 show -> counted 2
  entry 10.0.0.5 dev eth0 lladdr 00:11:22:33:44:55 PERMANENT
  entry 10.0.0.7 dev eth0 lladdr 00:11:22:33:44:66 PERMANENT
host lines 8
1 0 neigh op 0 0 missing
2 0 neigh op 0 1 noaddress
3 0 neigh op 0 2 noaddress
4 0 neigh op 0 3 missing
5 0 neigh op 0 4 ignored
6 0 neigh op 0 5 done
7 0 neigh op 0 6 done
8 0 neigh op 0 7 counted 2
sender 1 items 0
marks 0
fates sent 0 fast 0 dropped 0 waiting 0
table 2
10.0.0.5 dev eth0 lladdr 00:11:22:33:44:55 PERMANENT
10.0.0.7 dev eth0 lladdr 00:11:22:33:44:66 PERMANENT
proxies 0
end
== spellings_have_one_written_form: senders 1
# numbers may begin with zeros, and words may stand far apart
@007 neigh  add   10.0.0.1 lladdr 0:AA:b:0C:44:5

@8 send 01 10.0.0.1 4500ABcd
  # done
-- report
bucket 0 lines 2
0 7 32 add 10.0.0.1 00:aa:0b:0c:44:05 permanent -> done
1 8 33 send 10.0.0.1 -> sent
  tx 33 00aa0b0c440502000000000208004500abcd
host lines 1
1 7 neigh op 0 0 done
sender 1 items 1
1 8 inline 1 sent
marks 0
fates sent 1 fast 0 dropped 0 waiting 0
table 1
10.0.0.1 dev eth0 lladdr 00:aa:0b:0c:44:05 PERMANENT
proxies 0
end
";
