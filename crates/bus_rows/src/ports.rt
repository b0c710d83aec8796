// Port steps, which go by the last byte on the bus: it names the port. A 3853 has the ports 0C to 0F.

/// Each fault, and port steps that are served. A fault leaves the last byte, so a write behind it goes to the same port; at a port that is
/// nobody's it is lost.
pub(crate) const CARTS: &str = "\
Two 3851s, whose data ports are written and read back.
3851 0 0000 0000 04 0000
3851 1 0000 0000 08 0000
3853-void 2 0000 FF
1C 04 -> served 04
1A 81 -> served 81 socket 0
1C 04 -> served 04
1B 77 -> served 81 socket 0
1C 09 -> served 09
1A 42 -> served 42 socket 1
1C 09 -> served 09
1B 77 -> served 42 socket 1
probe = 0000 0000 0000 0000
counters 0 = 0000 0000 0000
counters 1 = 0000 0000 0000
counters 2 = 0000 0000 0000 0000
counters 3 = 0000 0000 0000 0000
latch 0 04 = 81
latch 0 05 = 00
latch 1 09 = 42

Ports that no chip drives: control, timer and vector, and port 20, which is nobody's.
3851 0 0000 0000 04 0000
3853-void 2 0000 FF
1C 06 -> served 06
1B 77 -> undriven romc 1B at 0006
1A 01 -> served 01 socket 0
1C 07 -> served 07
1B 77 -> undriven romc 1B at 0007
1A FE -> served FE socket 0
1C 0C -> served 0C
1B 77 -> undriven romc 1B at 000C
1A 12 -> served 12 socket 2
1C 20 -> served 20
1B 77 -> undriven romc 1B at 0020
1A 02 -> served 02
1B 77 -> undriven romc 1B at 0002
probe = 0000 0000 0000 0000
counters 0 = 0000 0000 0000
counters 1 = 0000 0000 0000
counters 2 = 0000 0000 0000 0000
counters 3 = 0000 0000 0000 0000
latch 0 04 = 00
latch 0 05 = 00

Two 3851s and two 3853s with ports from 0C: all would take a byte, and the 3851s drive one at a data port.
3851 0 0000 0000 0C 0000
3851 1 0000 0000 0C 0000
3853-void 2 0000 FF
3853-void 3 0000 FF
1C 0C -> served 0C
1A 55 -> conflict romc 1A socket 0 at 000C socket 1 at 000C socket 2 at 000C socket 3 at 000C
1B 77 -> conflict romc 1B socket 0 at 000C socket 1 at 000C
1C 0E -> served 0E
1A 55 -> conflict romc 1A socket 0 at 000E socket 1 at 000E socket 2 at 000E socket 3 at 000E
1B 77 -> undriven romc 1B at 000E
probe = 0000 0000 0000 0000
counters 0 = 0000 0000 0000
counters 1 = 0000 0000 0000
counters 2 = 0000 0000 0000 0000
counters 3 = 0000 0000 0000 0000
latch 0 0C = 00
latch 1 0C = 00

A 3851's data port is a 3853's vector port: the 3851 alone drives, and both would take a byte.
3851 1 0000 0000 0C 0000
3853-void 2 0000 FF
1C 0D -> served 0D
1A 55 -> conflict romc 1A socket 1 at 000D socket 2 at 000D
1B 77 -> served 00 socket 1
probe = 0000 0000 0000 0000
counters 0 = 0000 0000 0000
counters 1 = 0000 0000 0000
counters 2 = 0000 0000 0000 0000
counters 3 = 0000 0000 0000 0000
latch 1 0C = 00
latch 1 0D = 00

A 3861 takes a byte at each of its four ports, and drives one at its two data ports alone. A fault leaves the last byte.
3851 0 0000 0000 04 0000
3861 4 9000 10 0000
1C 10 -> served 10
1A 81 -> served 81 socket 4
1C 10 -> served 10
1B 77 -> served 81 socket 4
1C 11 -> served 11
1A 42 -> served 42 socket 4
1C 11 -> served 11
1B 77 -> served 42 socket 4
1C 12 -> served 12
1B 77 -> undriven romc 1B at 0012
1A 01 -> served 01 socket 4
1C 13 -> served 13
1B 77 -> undriven romc 1B at 0013
1A FE -> served FE socket 4
probe = 0000 0000 0000 0000
counters 0 = 0000 0000 0000
counters 4 = 0000 0000 0000
latch 0 04 = 00
latch 4 10 = 81
latch 4 11 = 42

A 3851 and a 3861 with ports from 08: both would take a byte, and both drive one at a data port.
3851 0 0000 0000 08 0000
3861 4 9000 08 0000
1C 08 -> served 08
1A 55 -> conflict romc 1A socket 0 at 0008 socket 4 at 0008
1B 77 -> conflict romc 1B socket 0 at 0008 socket 4 at 0008
1C 0A -> served 0A
1A 55 -> conflict romc 1A socket 0 at 000A socket 4 at 000A
1B 77 -> undriven romc 1B at 000A
probe = 0000 0000 0000 0000
counters 0 = 0000 0000 0000
counters 4 = 0000 0000 0000
latch 0 08 = 00
latch 4 08 = 00
";
