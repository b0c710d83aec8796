// Steps in which a chip has to drive a byte of memory or of a counter. A 3861 has neither: it takes no part in any of them, though each
// counter that it tells is 0, as the probe's are at first.

/// Each fault in each of the thirteen codes of such steps, and steps that are served. None of the faults changes anything, so each step finds
/// what the first found.
pub(crate) const CARTS: &str = "\
Three chips drive, each at its own address.
3851 0 0000 0000 04 0000
3851 1 0001 0000 08 0000
3853-rom 2 0002 00
3861 4 9000 10 0000
00 77 -> conflict romc 00 socket 0 at 0000 socket 1 at 0001 socket 2 at 0002
01 77 -> conflict romc 01 socket 0 at 0000 socket 1 at 0001 socket 2 at 0002
02 77 -> conflict romc 02 socket 0 at 0000 socket 1 at 0001 socket 2 at 0002
03 77 -> conflict romc 03 socket 0 at 0000 socket 1 at 0001 socket 2 at 0002
06 77 -> conflict romc 06 socket 0 at 0000 socket 1 at 0001 socket 2 at 0002
07 77 -> conflict romc 07 socket 0 at 0000 socket 1 at 0001 socket 2 at 0002
09 77 -> conflict romc 09 socket 0 at 0000 socket 1 at 0001 socket 2 at 0002
0B 77 -> conflict romc 0B socket 0 at 0000 socket 1 at 0001 socket 2 at 0002
0C 77 -> conflict romc 0C socket 0 at 0000 socket 1 at 0001 socket 2 at 0002
0E 77 -> conflict romc 0E socket 0 at 0000 socket 1 at 0001 socket 2 at 0002
11 77 -> conflict romc 11 socket 0 at 0000 socket 1 at 0001 socket 2 at 0002
1E 77 -> conflict romc 1E socket 0 at 0000 socket 1 at 0001 socket 2 at 0002
1F 77 -> conflict romc 1F socket 0 at 0000 socket 1 at 0001 socket 2 at 0002
probe = 0000 0000 0000 0000
counters 0 = 0000 0000 0000
counters 1 = 0001 0001 0001
counters 2 = 0002 0002 0002 0002
counters 4 = 0000 0000 0000

The only chip with memory holds the probe's address, but not its own.
3851 0 9000 0000 04 0000
3861 4 9000 10 0000
00 77 -> undriven romc 00 at 0000
01 77 -> undriven romc 01 at 0000
02 77 -> undriven romc 02 at 0000
03 77 -> undriven romc 03 at 0000
06 77 -> undriven romc 06 at 0000
07 77 -> undriven romc 07 at 0000
09 77 -> undriven romc 09 at 0000
0B 77 -> undriven romc 0B at 0000
0C 77 -> undriven romc 0C at 0000
0E 77 -> undriven romc 0E at 0000
11 77 -> undriven romc 11 at 0000
1E 77 -> undriven romc 1E at 0000
1F 77 -> undriven romc 1F at 0000
probe = 0000 0000 0000 0000
counters 0 = 9000 9000 9000
counters 4 = 0000 0000 0000

The driver is away from the probe. A lower chip stands by at the probe's address, and isn't named.
3851 0 9000 0000 04 0000
3851 1 0005 0000 08 0000
3861 4 9000 10 0000
00 77 -> astray romc 00 socket 1 at 0005 reference 0000
01 77 -> astray romc 01 socket 1 at 0005 reference 0000
02 77 -> astray romc 02 socket 1 at 0005 reference 0000
03 77 -> astray romc 03 socket 1 at 0005 reference 0000
06 77 -> astray romc 06 socket 1 at 0005 reference 0000
07 77 -> astray romc 07 socket 1 at 0005 reference 0000
09 77 -> astray romc 09 socket 1 at 0005 reference 0000
0B 77 -> astray romc 0B socket 1 at 0005 reference 0000
0C 77 -> astray romc 0C socket 1 at 0005 reference 0000
0E 77 -> astray romc 0E socket 1 at 0005 reference 0000
11 77 -> astray romc 11 socket 1 at 0005 reference 0000
1E 77 -> astray romc 1E socket 1 at 0005 reference 0000
1F 77 -> astray romc 1F socket 1 at 0005 reference 0000
probe = 0000 0000 0000 0000
counters 0 = 9000 9000 9000
counters 1 = 0005 0005 0005
counters 4 = 0000 0000 0000

The driver is at the probe's address, which a lower and a higher chip hold as well, the higher one in a page without memory.
3851 0 9000 0000 04 0000
3851 1 0000 0000 08 0000
3853-void 3 9003 00
3861 4 9000 10 0000
00 77 -> astray romc 00 socket 0 at 9000 reference 0000
01 77 -> astray romc 01 socket 0 at 9000 reference 0000
02 77 -> astray romc 02 socket 0 at 9000 reference 0000
03 77 -> astray romc 03 socket 0 at 9000 reference 0000
06 77 -> astray romc 06 socket 0 at 9000 reference 0000
07 77 -> astray romc 07 socket 0 at 9000 reference 0000
09 77 -> astray romc 09 socket 0 at 9000 reference 0000
0B 77 -> astray romc 0B socket 0 at 9000 reference 0000
0C 77 -> astray romc 0C socket 0 at 9000 reference 0000
0E 77 -> astray romc 0E socket 0 at 9000 reference 0000
11 77 -> astray romc 11 socket 0 at 9000 reference 0000
1E 77 -> astray romc 1E socket 0 at 9000 reference 0000
1F 77 -> astray romc 1F socket 0 at 9000 reference 0000
probe = 0000 0000 0000 0000
counters 0 = 9000 9000 9000
counters 1 = 0000 0000 0000
counters 4 = 0000 0000 0000

The driver is at the probe's address, which a higher chip alone holds as well, in a page without memory.
3851 0 0000 0000 04 0000
3853-void 3 9003 00
3861 4 9000 10 0000
00 77 -> astray romc 00 socket 3 at 9003 reference 0000
01 77 -> astray romc 01 socket 3 at 9003 reference 0000
02 77 -> astray romc 02 socket 3 at 9003 reference 0000
03 77 -> astray romc 03 socket 3 at 9003 reference 0000
06 77 -> astray romc 06 socket 3 at 9003 reference 0000
07 77 -> astray romc 07 socket 3 at 9003 reference 0000
09 77 -> astray romc 09 socket 3 at 9003 reference 0000
0B 77 -> astray romc 0B socket 3 at 9003 reference 0000
0C 77 -> astray romc 0C socket 3 at 9003 reference 0000
0E 77 -> astray romc 0E socket 3 at 9003 reference 0000
11 77 -> astray romc 11 socket 3 at 9003 reference 0000
1E 77 -> astray romc 1E socket 3 at 9003 reference 0000
1F 77 -> astray romc 1F socket 3 at 9003 reference 0000
probe = 0000 0000 0000 0000
counters 0 = 0000 0000 0000
counters 4 = 0000 0000 0000

All thirteen steps, served by one chip; blank chips with counters and a 3861 hear them as well.
rom 0000 2A 04 05 FE FF 5A
3851 0 0000 0400 04 0000
3861 4 9000 10 0000
14 04 -> served 04
00 77 -> served 2A socket 0
11 77 -> served 04 socket 0
03 77 -> served 04 socket 0
0E 77 -> served 05 socket 0
03 77 -> served 05 socket 0
06 77 -> served 04 socket 0
09 77 -> served 05 socket 0
02 77 -> served 5A socket 0
0D 77 -> served 00
18 62 -> served 62
07 77 -> served 04 socket 0
0B 77 -> served 62 socket 0
01 77 -> served FE socket 0
1E 77 -> served 01 socket 0
1F 77 -> served 04 socket 0
0C 77 -> served 04 socket 0
probe = 0404 0462 0406 0000
counters 0 = 0404 0462 0406
counters 1 = 0404 0462 0406
counters 2 = 0404 0462 0406 0000
counters 3 = 0404 0462 0406 0000
counters 4 = 0000 0000 0000

A branch at 0000 whose displacement byte, FD, stands at 0001: from there -3 leads to FFFE, which the chip doesn't hold.
rom 0000 90 FD
3851 0 0000 0000 04 0000
00 77 -> served 90 socket 0
01 77 -> served FD socket 0
00 77 -> undriven romc 00 at FFFE
probe = FFFE 0000 0000 0000
counters 0 = FFFE 0000 0000
";
