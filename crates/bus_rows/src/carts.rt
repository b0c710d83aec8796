// Whole carts, from reset to the bus step that isn't served. The counters of a chip begin at the number of its socket.

/// The carts of the page on the bus.
pub(crate) const CARTS: &str = "\
Two 3851s at 0000 fetch one opcode: a conflict, though the bytes agree.
rom 0000 2B
3851 0 0000 0000 04 0000
3851 1 0001 0000 08 0000
1C 00 -> served 00
08 00 -> served 00
00 77 -> conflict romc 00 socket 0 at 0000 socket 1 at 0000
probe = 0000 0000 0000 0000
counters 0 = 0000 0000 0000
counters 1 = 0000 0001 0001

The 3851 has one data counter and drives at 0010. The 3853 has two, and drives at 2800.
rom 0000 2A 28 00 2C 2A 00 10 2C 16
3851 0 0000 0000 04 0000
3853-ram 2 0002 28
1C 00 -> served 00
08 00 -> served 00
00 77 -> served 2A socket 0
11 77 -> served 28 socket 0
03 77 -> served 28 socket 0
0E 77 -> served 00 socket 0
03 77 -> served 00 socket 0
00 77 -> served 2C socket 0
1D 77 -> served 00
00 77 -> served 2A socket 0
11 77 -> served 00 socket 0
03 77 -> served 00 socket 0
0E 77 -> served 10 socket 0
03 77 -> served 10 socket 0
00 77 -> served 2C socket 0
1D 77 -> served 00
00 77 -> served 16 socket 0
02 77 -> conflict romc 02 socket 0 at 0010 socket 2 at 2800
probe = 0009 0000 2800 0010
counters 0 = 0009 0000 0010
counters 1 = 0009 0000 0010
counters 2 = 0009 0002 2800 0010

A jump to 03FE, where another jump is cut by the end of the chip: its low byte would lie at 0400.
rom 0000 29 03 FE
rom 03FE 29 08
3851 0 0000 0000 04 0000
1C 00 -> served 00
08 00 -> served 00
00 77 -> served 29 socket 0
03 77 -> served 03 socket 0
0C 77 -> served FE socket 0
14 03 -> served 03
00 77 -> served 29 socket 0
03 77 -> served 08 socket 0
0C 77 -> undriven romc 0C at 0400
probe = 0400 0000 0000 0000
counters 0 = 0400 0000 0000

A load of 0005, an exchange and a read of data: the 3851, which has no second data counter, is still at 0005, and the probe at 0000.
rom 0000 2A 00 05 2C 16
3851 0 0000 0000 04 0000
1C 00 -> served 00
08 00 -> served 00
00 77 -> served 2A socket 0
11 77 -> served 00 socket 0
03 77 -> served 00 socket 0
0E 77 -> served 05 socket 0
03 77 -> served 05 socket 0
00 77 -> served 2C socket 0
1D 77 -> served 00
00 77 -> served 16 socket 0
02 77 -> astray romc 02 socket 0 at 0005 reference 0000
probe = 0005 0000 0000 0005
counters 0 = 0005 0000 0005

The 3853 drives at 0400, where the probe is. The 3851 in socket 1 holds 0400 too, but its only data counter is at 9000.
rom 0000 2A 04 00 2C 2A 90 00 2C 16
3851 0 0000 0000 04 0000
3851 1 0001 0400 08 0000
3853-rom 2 0002 04
1C 00 -> served 00
08 00 -> served 00
00 77 -> served 2A socket 0
11 77 -> served 04 socket 0
03 77 -> served 04 socket 0
0E 77 -> served 00 socket 0
03 77 -> served 00 socket 0
00 77 -> served 2C socket 0
1D 77 -> served 00
00 77 -> served 2A socket 0
11 77 -> served 90 socket 0
03 77 -> served 90 socket 0
0E 77 -> served 00 socket 0
03 77 -> served 00 socket 0
00 77 -> served 2C socket 0
1D 77 -> served 00
00 77 -> served 16 socket 0
02 77 -> astray romc 02 socket 1 at 9000 reference 0400
probe = 0009 0000 0400 9000
counters 0 = 0009 0000 9000
counters 1 = 0009 0001 9000
counters 2 = 0009 0002 0400 9000
";

/// 3851s with the patch 70, at 0401 in socket 0 and at 0001 in socket 1.
pub(crate) const PATCHED: &str = "\
A patch at 0401 shows in a ROM that holds that address, and every other byte is the described one.
rom 0000 2B 2B
3851 0 0400 0400 04 0000
3851 1 0400 0400 08 0000
byte 0 0400 = 2B
byte 0 0401 = 70
byte 1 0401 = 2B
byte 1 0001 = none
";
