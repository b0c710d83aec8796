// Worked texts of modules, each with its object.
use f8_link::{Base, Fixup, FixupKind, ModAnswer, Named, Object, compile};
use std::alloc::Global;
use std::test::Fail;

/// Longer texts are not tried here.
const LIMIT: usize = 1_000;

/// What linking makes of a value.
fn kind(fixup: &Fixup) -> &'static str {
    match fixup.kind {
        FixupKind::Word => "Word",
        FixupKind::Byte => "Byte",
        FixupKind::Low => "Low",
        FixupKind::High => "High",
        FixupKind::Branch => "Branch",
    }
}

/// Writes an exported name and what it stands for.
fn write_export(written: &mut String, name: &str, named: &Named) -> Result<(), Fail> {
    match named {
        Named::Constant(value) => write!(written, " {name}={value}")?,
        Named::Offset(offset) => write!(written, " {name}=own+{offset}")?,
    }
    Ok(())
}

/// Writes what linking puts: where, what, from which base, and how far from it.
fn write_fixup(written: &mut String, fixup: &Fixup) -> Result<(), Fail> {
    let offset = fixup.offset;
    let kind = kind(fixup);
    let k = fixup.k;
    match fixup.base {
        Some(Base::Module) => write!(written, ", {offset} {kind} own {k}")?,
        Some(Base::Import(number)) => write!(written, ", {offset} {kind} {number} {k}")?,
        None => write!(written, ", {offset} {kind} none {k}")?,
    }
    Ok(())
}

/// Writes the bytes, the exports, how many imports there are, and what linking puts.
fn write_object(written: &mut String, object: &Object) -> Result<(), Fail> {
    for byte in object.bytes() {
        write!(written, "{byte:02X}")?;
    }
    for (name, named) in object.exports() {
        write_export(written, name.as_str(), named)?;
    }
    let imports = object.imports().len();
    write!(written, " {imports}")?;
    for fixup in object.fixups() {
        write_fixup(written, fixup)?;
    }
    Ok(())
}

/// What `compile` answers, as text: the object, or the fault's line, column and number.
fn answer(alloc: Global, text: &str) -> Result<String, Fail> {
    let mut written = String::new(alloc);
    if text.len() > LIMIT {
        return Ok(written);
    }
    match compile(alloc, text.as_bytes()) {
        Ok(object) => write_object(&mut written, &object)?,
        Err(ModAnswer::Fault(fault)) => {
            let number = fault.cause.number();
            let line = fault.line;
            let column = fault.column;
            write!(written, "{line} {column} {number}")?
        }
        Err(ModAnswer::Memory) => write!(written, "memory")?,
    }
    Ok(written)
}

#[test]
fn modules_have_objects(rt: HostRuntime) -> Result<(), Fail> {
    for (text, want) in [
        ("", " 0"),
        (
            " EXPORT START\n IMPORT TICK\nSTART: PI TICK\n BR START",
            "28000090FC START=own+0 1, 1 Word 0 0",
        ),
        (
            " IMPORT X\n DB <X,>(X+0)\n DW <X,X-3",
            "000000000000 1, 0 Low 0 0, 1 High 0 0, 3 Low 0 0, 4 Word 0 -3",
        ),
        (
            " IMPORT X\n BR X\n BR 5\n BR .",
            "9000900090FF 1, 1 Branch 0 0, 3 Branch none 5",
        ),
        (
            "A1: NOP\nB1: DW B1-A1,A1-B1+5\nL: EQU B1-A1",
            "2B00010004 0",
        ),
        ("X: DB X+65535-65535", "00 0, 0 Byte own 0"),
        (" EXPORT X,X\nX: EQU 7", " X=7 X=7 0"),
        (
            " IMPORT X\n PI <X\n LI >X\n DW $1234",
            "28000020001234 1, 2 Low 0 0, 4 High 0 0",
        ),
        (
            " IMPORT X,Y\n BT 1,Y-2\n BF 0,.",
            "810090FF 2, 1 Branch 1 -2",
        ),
        (" BR .+128\n BR .-127", "907F9080 0"),
    ] {
        let got = answer(rt.alloc(), text)?;
        assert!(rt; got.as_str() == want, "{text}");
    }
    Ok(())
}
