// Acknowledgements of an interrupt, in which the named chip alone drives, wherever the counters are.

/// Each chip comes to let pulses in, which it doesn't before, and the 3853 to have its vector. A fetch is a conflict, and four
/// acknowledgements are served all the same: a pulse sets bit 7 of the low byte of a vector, and all chips with counters take each vector.
pub(crate) const CARTS: &str = "\
Two 3851s at 0000 with the vectors 1234 and 5678, a 3853 that stands by there with the vector 9A3C, and a 3861 with the vector 2345.
3851 0 0000 0000 04 1234
3851 1 0000 0000 08 5678
3853-void 2 9000 00
3861 4 9000 10 2345
pulse 0 -> false false
pulse 2 -> false false
pulse 4 -> false false
1C 06 -> served 06
1A 01 -> served 01 socket 0
1C 0A -> served 0A
1A 01 -> served 01 socket 1
1C 0C -> served 0C
1A 9A -> served 9A socket 2
1C 0D -> served 0D
1A 3C -> served 3C socket 2
1C 0E -> served 0E
1A 01 -> served 01 socket 2
1C 12 -> served 12
1A 01 -> served 01 socket 4
00 77 -> conflict romc 00 socket 0 at 0000 socket 1 at 0000
pulse 0 -> false true
pulse 1 -> false true
pulse 2 -> false true
pulse 4 -> false true
10 77 1 -> served 00
0F 77 1 -> served F8 socket 1
13 77 1 -> served 56 socket 1
asks 1 -> false
10 77 2 -> served 00
0F 77 2 -> served BC socket 2
13 77 2 -> served 9A socket 2
asks 2 -> false
10 77 4 -> served 00
0F 77 4 -> served C5 socket 4
13 77 4 -> served 23 socket 4
asks 4 -> false
10 77 0 -> served 00
0F 77 0 -> served B4 socket 0
13 77 0 -> served 12 socket 0
asks 0 -> false
probe = 12B4 23C5 0000 0000
counters 0 = 12B4 23C5 0000
counters 1 = 12B4 23C5 0000
counters 2 = 12B4 23C5 9000 9000
counters 4 = 0000 0000 0000
";
