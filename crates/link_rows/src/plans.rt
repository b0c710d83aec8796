// Worked plans, each with its modules.
use f8_link::{PlanAnswer, read_plan};
use std::alloc::Global;
use std::test::Fail;

/// Longer texts are not tried here.
const LIMIT: usize = 10_000;

/// What `read_plan` answers, as text: the modules with their rooms, or the fault's line and number.
fn answer(alloc: Global, text: &str) -> Result<String, Fail> {
    let mut written = String::new(alloc);
    if text.len() > LIMIT {
        return Ok(written);
    }
    match read_plan(alloc, text.as_bytes()) {
        Ok(plan) => {
            for line in plan.as_slice() {
                let file = line.file.as_str();
                let first = line.room.first;
                let last = line.room.last;
                write!(written, "{file} {first} {last};")?;
            }
        }
        Err(PlanAnswer::Fault(fault)) => {
            let number = fault.cause.number();
            let line = fault.line;
            write!(written, "{line} {number}")?
        }
        Err(PlanAnswer::Memory) => write!(written, "memory")?,
    }
    Ok(written)
}

#[test]
fn plans_have_modules(rt: HostRuntime) -> Result<(), Fail> {
    for (text, want) in [
        (
            "module a 0000 03FF\nmodule b 0400 07ff\n",
            "a 0 1023;b 1024 2047;",
        ),
        (
            "# a comment\r\n \t\r\nmodule dir/a.f8 FFFF fFfF\r\n",
            "dir/a.f8 65535 65535;",
        ),
        ("module a 0001 0001\nmodule a 0001 0001", "a 1 1;a 1 1;"),
        (
            "module 0123456789012345678901234567890123456789012345678901234567890123 0000 0000",
            "0123456789012345678901234567890123456789012345678901234567890123 0 0;",
        ),
    ] {
        let got = answer(rt.alloc(), text)?;
        assert!(rt; got.as_str() == want, "{text}");
    }
    Ok(())
}
