// Steps in which the byte is the CPU's, or nobody's: all are served, wherever the counters are. A 3861 hears them, and has no counter that
// one could move.

/// All fourteen codes. Nobody drives in 04, 0D, 10 and 1D, and the byte is 00.
pub(crate) const CARTS: &str = "\
Three chips that hold the probe's address, each at one of its own. The program counter and the stack register: 0D, 14, 15 and 17.
3851 0 0001 0000 04 0000
3851 1 9002 0000 08 0000
3853-ram 2 2803 00
3861 4 9000 10 0000
17 34 -> served 34
0D 77 -> served 00
14 12 -> served 12
15 45 -> served 45
probe = 1234 4535 0000 0000
counters 0 = 1234 4535 0001
counters 1 = 1234 4535 9002
counters 2 = 1234 4535 2803 2803
counters 4 = 0000 0000 0000

The same two: 04, 08, 12 and 18.
3851 0 0001 0000 04 0000
3851 1 9002 0000 08 0000
3853-ram 2 2803 00
3861 4 9000 10 0000
08 00 -> served 00
18 67 -> served 67
04 77 -> served 00
12 EF -> served EF
probe = 00EF 0067 0000 0000
counters 0 = 00EF 0067 0001
counters 1 = 90EF 9067 9002
counters 2 = 28EF 2867 2803 2803
counters 4 = 0000 0000 0000

The data counters, and what moves no counter: 0A, 10, 16, 19, 1C and 1D.
3851 0 0001 0000 04 0000
3851 1 9002 0000 08 0000
3853-ram 2 2803 00
3861 4 9000 10 0000
19 AB -> served AB
1D 77 -> served 00
0A FE -> served FE
16 89 -> served 89
10 77 -> served 00
1C CD -> served CD
probe = 0000 0000 89FE 00AB
counters 0 = 0001 0001 89A9
counters 1 = 9002 9002 89A9
counters 2 = 2803 2803 8901 28AB
counters 4 = 0000 0000 0000
";
