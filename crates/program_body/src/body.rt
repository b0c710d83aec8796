// `main`'s body as a macro: no function may make a boxed chip and hand it out. This crate stands on no other, and is none that a build waits
// for. A program that calls it names psu3851, smi3853, pio3861, f8_machine, outside and channel_f beside it.

/// Puts so many chips into a rack, or ends `main` where memory is wanting.
#[macro_export]
macro_rules! seat {
    ($rt:ident, $rack:ident, $count:expr, $chip:expr) => {
        for _ in 0..$count {
            let Ok(chip) = Box::new($rt.alloc(), $chip) else {
                return $crate::exit_code(channel_f::Status::Memory.code());
            };
            if $rack.push(chip).is_err() {
                return $crate::exit_code(channel_f::Status::Memory.code());
            }
        }
    };
}

/// All that `main` does: the words behind the program's name, a rack of 12 blank 3851s, 2 blank 3853s and 2 blank 3861s, the system's files
/// and standard output go to `console`, whose number is the exit status.
#[macro_export]
macro_rules! program_body {
    ($rt:ident) => {{
        let words = match $crate::words_given(
            $rt.alloc(),
            std::env::args(&$rt),
            channel_f::Status::NoWords,
            channel_f::Status::Memory,
        ) {
            Ok(words) => words,
            Err(status) => return $crate::exit_code(status.code()),
        };
        let mut rack: f8_machine::Rack = Vec::new($rt.alloc());
        $crate::seat!($rt, rack, 12, psu3851::Psu::blank());
        $crate::seat!($rt, rack, 2, smi3853::Smi::blank());
        $crate::seat!($rt, rack, 2, pio3861::Pio::blank());
        let mut sink = outside::OutSink::new(std::io::writer(&$rt));
        let mut store = outside::FileStore::new(&$rt);
        $crate::exit_code(channel_f::console(
            $rt.alloc(),
            words.as_slice(),
            &mut store,
            &mut sink,
            &mut rack,
        ))
    }};
}
