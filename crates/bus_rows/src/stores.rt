// Stores: a chip takes the byte where its own data counter lies in RAM of its own.

/// Each fault, and stores that are served. A chip that stands by with ROM at the probe's address is no fault.
pub(crate) const CARTS: &str = "\
Two chips have RAM at their own addresses.
3853-ram 2 2800 28
3853-ram 3 2801 28
05 5A -> conflict romc 05 socket 2 at 2800 socket 3 at 2801
probe = 0000 0000 0000 0000
counters 0 = 0000 0000 0000
counters 1 = 0000 0000 0000
counters 2 = 2800 2800 2800 2800
counters 3 = 2801 2801 2801 2801
byte 2 2800 = 00
byte 3 2801 = 00

The taker is away from the probe. A lower chip has RAM at the probe's address, and isn't named.
3853-ram 2 9000 00
3853-ram 3 2805 28
05 5A -> astray romc 05 socket 3 at 2805 reference 0000
probe = 0000 0000 0000 0000
counters 0 = 0000 0000 0000
counters 1 = 0000 0000 0000
counters 2 = 9000 9000 9000 9000
counters 3 = 2805 2805 2805 2805
byte 2 0000 = 00
byte 3 2805 = 00

A chip has RAM at the probe's address and doesn't take the byte, beside one that does.
3853-ram 2 9000 00
3853-ram 3 0000 00
05 5A -> astray romc 05 socket 2 at 9000 reference 0000
probe = 0000 0000 0000 0000
counters 0 = 0000 0000 0000
counters 1 = 0000 0000 0000
counters 2 = 9000 9000 9000 9000
counters 3 = 0000 0000 0000 0000
byte 2 0000 = 00
byte 3 0000 = 00

A chip has RAM at the probe's address and doesn't take the byte, and none does.
3851 0 0000 0000 04 0000
3853-ram 2 9000 00
05 5A -> astray romc 05 socket 2 at 9000 reference 0000
probe = 0000 0000 0000 0000
counters 0 = 0000 0000 0000
counters 1 = 0000 0000 0000
counters 2 = 9000 9000 9000 9000
byte 2 0000 = 00

Stores at 2801 in RAM, and at 0000 in ROM, 2A02 where there is nothing, and 9003, which no chip holds, where the byte is lost.
3851 0 0000 0000 04 0000
3851 1 9000 0000 08 0000
3853-ram 2 0000 28
3853-void 3 0000 2A
05 11 -> served 11
16 28 -> served 28
05 5A -> served 5A socket 2
19 01 -> served 01
02 77 -> served 5A socket 2
16 2A -> served 2A
05 33 -> served 33
19 02 -> served 02
02 77 -> served FF socket 3
16 90 -> served 90
05 66 -> served 66
probe = 0000 0000 9004 0000
counters 0 = 0000 0000 9004
counters 1 = 9000 9000 9004
counters 2 = 0000 0000 9004 0000
counters 3 = 0000 0000 9004 0000
byte 0 0000 = FF
byte 2 2801 = 5A
byte 3 2A02 = FF
";
