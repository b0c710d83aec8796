// The plan of a description: sources, rooms and images.
use cart_data::Cart;
use cartridge::{Plan, read_cart};
use chip_face::ChipSpec;
use f8_asm::{Room, assemble};
use std::alloc::Global;
use std::process::Abort;
use std::test::Fail;

/// Two chips with sources, and a third without.
const DESCRIPTION: &str = "format = 1\nsplit = [9]\n\
     [[chip]]\nkind = '3851'\nbase = 0x400\nports = 4\nsource = 'one.asm'\n\
     [[chip]]\nkind = '3853'\nrom_page = 0x28\nrom_pages = 2\nsource = 'two.asm'\n\
     [[chip]]\nkind = '3853'\nram_page = 0x30\nram_pages = 8\n";

fn plan_with_sources(alloc: Global) -> Result<Plan, Fail> {
    let table = toml::table_from_str(alloc, DESCRIPTION)?;
    Ok(read_cart(alloc, &table)?)
}

/// Longer texts are not tried here.
const LIMIT: usize = 1_000;

/// Puts the image of a text into a chip.
#[tactic(auto, using(cartridge::proofs::ImageRooms::room_for_image))]
fn put(alloc: Global, plan: &mut Plan, chip: u8, text: &str) -> Result<(), Fail> {
    if text.len() > LIMIT {
        return Ok(());
    }
    let Some(room) = plan.room(chip) else {
        return Ok(());
    };
    let image = assemble(alloc, text.as_bytes(), room)?;
    plan.fill(chip, &image);
    Ok(())
}

/// A byte of a chip's ROM.
fn byte_at(cart: &Cart, chip: usize, place: usize) -> Option<u8> {
    match cart.chips.as_slice().get(chip)? {
        ChipSpec::Blank(_) | ChipSpec::Pio { .. } => None,
        ChipSpec::Psu { rom, .. } => rom.get(place),
        ChipSpec::Smi { rom, .. } => rom.get(place),
    }
}

#[test]
fn plans_have_sources_and_rooms(rt: HostRuntime) -> Result<(), Fail> {
    let plan = plan_with_sources(rt.alloc())?;
    let psu = Room {
        first: 0x400,
        last: 0x7FF,
    };
    let smi = Room {
        first: 0x2800,
        last: 0x29FF,
    };
    for (chip, source, room) in [
        (0, Some("one.asm"), Some(psu)),
        (1, Some("two.asm"), Some(smi)),
        (2, None, None),
        (3, None, None),
    ] {
        assert!(rt; plan.source(chip) == source, "{chip}");
        assert!(rt; plan.room(chip) == room, "{chip}");
    }
    Ok(())
}

/// The plan with images of both sources, the first of them twice.
fn filled_plan(alloc: Global) -> Result<Plan, Fail> {
    let mut plan = plan_with_sources(alloc)?;
    for (chip, text) in [
        (0, " ORG $0402\n DB $71,2"),
        (1, " ORG $2900\n DB 5"),
        (0, " ORG $0403\n DB 3"),
    ] {
        put(alloc, &mut plan, chip, text)?;
    }
    Ok(plan)
}

/// A chip, a place in its ROM, and the byte there.
static BYTES: [(usize, usize, u8); 6] = [
    (0, 1, 0xFF),
    (0, 2, 0x71),
    (0, 3, 3),
    (0, 4, 0xFF),
    (1, 0xFF, 0xFF),
    (1, 0x100, 5),
];

fn check_bytes(rt: &impl Abort, cart: &Cart) {
    for (chip, place, want) in &BYTES {
        assert!(rt;
            byte_at(cart, *chip, *place) == Some(*want),
            "{chip} {place}"
        );
    }
}

#[test]
fn images_are_put_into_chips(rt: HostRuntime) -> Result<(), Fail> {
    let plan = filled_plan(rt.alloc())?;
    let Ok(cart) = plan.cart() else {
        panic!(rt; "a source isn't filled");
    };
    assert!(rt; cart.split.as_slice() == [9].as_slice());
    check_bytes(&rt, &cart);
    Ok(())
}

/// What is told of the plan where one chip is filled.
fn told_where_filled(alloc: Global, chip: u8) -> Result<String, Fail> {
    let mut plan = plan_with_sources(alloc)?;
    put(alloc, &mut plan, chip, "")?;
    match plan.cart() {
        Ok(_) => Err("each source is filled".into()),
        Err(unfilled) => Ok(format!(in alloc; "{unfilled}")?),
    }
}

#[test]
fn the_lowest_unfilled_chip_is_told(rt: HostRuntime) -> Result<(), Fail> {
    for (filled, want) in [
        (2, "the source of chip 0 isn't filled"),
        (1, "the source of chip 0 isn't filled"),
        (0, "the source of chip 1 isn't filled"),
    ] {
        let told = told_where_filled(rt.alloc(), filled)?;
        assert!(rt; told.as_str() == want);
    }
    Ok(())
}
