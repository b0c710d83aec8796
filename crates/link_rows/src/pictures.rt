// Two modules linked, and the numbers and the texts of causes.
use f8_asm::{AsmCause, Room};
use f8_link::{LinkCause, LinkFault, ModCause, Object, Part, PartList, compile, link};
use std::alloc::Global;
use std::test::Fail;

/// Longer texts are not tried here.
const LIMIT: usize = 1_000;

/// The object of a text.
fn object_of(alloc: Global, text: &str) -> Result<Object, Fail> {
    if text.len() > LIMIT {
        return Err("a text is too long".into());
    }
    Ok(compile(alloc, text.as_bytes())?)
}

// a branch to an import as far on as it reaches
#[test]
fn modules_are_linked(rt: HostRuntime) -> Result<(), Fail> {
    let mut parts = Vec::new(rt.alloc());
    for (text, first) in [(" IMPORT X\n BR X", 0), (" EXPORT X\nX: POP", 128)] {
        let object = object_of(rt.alloc(), text)?;
        let room = Room { first, last: 0xFF };
        parts.push(Part { object, room })?;
    }
    let parts = PartList::from_vec(parts);
    assert!(rt; parts.as_slice().len() == 2);
    let Ok(linked) = link(rt.alloc(), &parts) else {
        panic!(rt; "modules are not linked");
    };
    assert!(rt; linked.bytes() == [(0, 0x90), (1, 0x7F), (0x80, 0x1C)].as_slice());
    assert!(rt; linked.symbols().len() == 1);
    assert!(rt; linked.symbols().get(0) == Some(("X", 128)));
    Ok(())
}

#[test]
fn causes_have_numbers(rt: HostRuntime) -> Result<(), Fail> {
    for (cause, number, text) in [
        (LinkCause::Twice, 1, "module 3: name exported twice"),
        (LinkCause::Missing, 2, "module 3: name not exported"),
        (LinkCause::Outside, 3, "module 3: outside the room"),
        (LinkCause::Overlap, 4, "module 3: overlap"),
        (LinkCause::Reach, 5, "module 3: out of reach"),
    ] {
        let fault = LinkFault { module: 3, cause };
        let mut written = String::new(rt.alloc());
        write!(written, "{fault}")?;
        assert!(rt; cause.number() == number);
        assert!(rt; written.as_str() == text);
    }
    assert!(rt; ModCause::Asm(AsmCause::Form).number() == 11);
    assert!(rt; ModCause::Shape.number() == 12);
    Ok(())
}
