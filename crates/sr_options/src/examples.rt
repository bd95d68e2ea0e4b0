//! What stands below the help: two examples of the program, and two of each subcommand.

/// Of the program.
pub(crate) const PROGRAM: &str = "Examples:
  What two captures tell of the nodes of a PRP network, with alarms:
    seamless script --a lan-a.pcap --b lan-b.pcap --tick 100 | seamless status --role danp --mac 020000000001
  What a node of an HSR ring hands out for a script:
    seamless replay --role danh --mac 02:00:00:00:00:01 < ring.script";

/// Of `replay`.
pub(crate) const REPLAY: &str = "Examples:
  What a node of a PRP network hands up of the traffic of a Linux node:
    seamless replay --role danp --mac 020000000002 < examples/linux-prp-node.script
  What a RedBox between a ring and LAN B of PRP network 2 hands out:
    seamless replay --role prp --lan b --net 2 --mac 02:00:00:00:00:01 < ring.script";

/// Of `status`.
pub(crate) const STATUS: &str = "Examples:
  Which nodes two captures show, and which of them fell silent:
    seamless script --a lan-a.pcap --b lan-b.pcap --tick 100 | seamless status --role danp --mac 020000000001
  What a node of an HSR ring knows of the others:
    seamless status --role danh --mac 020000000002 < examples/linux-hsr-node.script";

/// Of `script`.
pub(crate) const SCRIPT: &str = "Examples:
  Two captures, where the clock of the second recorder is half a second ahead:
    seamless script --a lan-a.pcap --b lan-b.pcap --shift-b -500
  The second minute of two interfaces of one file, with a tick each 100 ms:
    seamless script --a lans.pcapng:0 --b lans.pcapng:1 --from 60000 --to 120000 --tick 100";

/// Of `audit`.
pub(crate) const AUDIT: &str = "Examples:
  Which frames one of two LANs lost:
    seamless audit --a lan-a.pcap --b lan-b.pcap --list lost
  A nightly test of a ring, which ends with status 3 where a figure tells of a fault:
    seamless audit --network hsr --a ring-a.pcap --b ring-b.pcap --check";

/// Of `merge`.
pub(crate) const MERGE: &str = "Examples:
  Two captures of a PRP network as one, which shows what each LAN lost:
    seamless merge --a lan-a.pcap --b lan-b.pcap -w merged.pcapng
  The frames of a ring that came by one direction alone, seen by Wireshark's own tool:
    seamless merge --network hsr --a ring-a.pcap --b ring-b.pcap --only lost -w - | tshark -r -";

/// Of `watch`.
pub(crate) const WATCH: &str = "Examples:
  What two recorders see of a PRP network, told each 10 seconds until they end:
    seamless watch --a <(dumpcap -q -i lan_a -w -) --b <(dumpcap -q -i lan_b -w -)
  The same by tcpdump, which needs -U, as objects of JSON and as metrics of Prometheus:
    seamless watch --a <(tcpdump -U -w - -i lan_a) --b <(tcpdump -U -w - -i lan_b) --format json --metrics /var/lib/node_exporter/seamless.prom";

/// Of `ring`.
pub(crate) const RING: &str = "Examples:
  A ring of four nodes, of which a link is cut:
    seamless ring --nodes 4 < examples/cut-ring.script
  The same run as a picture:
    seamless ring --nodes 4 --format svg < examples/cut-ring.script > cut-ring.svg";

/// Of `lan`.
pub(crate) const LAN: &str = "Examples:
  Two LANs of three nodes, of which one lacks a link:
    printf 'cut 1\\nsend 0 all 01\\nflow\\n' | seamless lan --nodes 3
  The same traffic where the first copy is lost:
    printf 'send 0 all 01\\ndrop 0\\nflow\\n' | seamless lan --nodes 3";

/// Of `ring-lan`.
pub(crate) const RING_LAN: &str = "Examples:
  A ring of four nodes and LANs of two, where the box of LAN A is lost:
    seamless ring-lan --ring 4 --lan 2 < examples/lost-redbox.script
  What a node of the LANs sends to all:
    printf 'send 4 all 01\\nflow\\n' | seamless ring-lan --ring 4 --lan 1";

/// Of `two-rings`.
pub(crate) const TWO_RINGS: &str = "Examples:
  Two rings of four nodes with two joins, of which one is cut:
    seamless two-rings --left 4 --right 4 --joins 2 < examples/cut-join.script
  What a node of the left ring sends to one of the right:
    printf 'send 2 5 01\\nflow\\n' | seamless two-rings --left 3 --right 3 --joins 1";
