// The sources of a description's chips.
ghost use Rattle.std.specs.Prelude.{◌≡◌, ◌+◌, ◌≤◌, ℕ, List, length, IfOk, position, None};
ghost use Rattle.cartridge.specs.Filling.{filled_plan};
ghost use Rattle.cartridge.specs.Rooms.{LiesIn};
ghost use Rattle.cartridge.specs.Carts.{wants_image};
ghost use Rattle.loader.specs.Games.{image_for, filled_at, filled_up_to, planned_cart};
ghost use Rattle.loader.specs.Works.{Works, RefusesFrom};

use super::fetching::fetch;
use super::purposes::Purpose;
use super::readings::read_image;
use super::refusals::Stop;
use cart_data::Cart;
use cartridge::Plan;
use chip_face::MOST_CHIPS;
use f8_asm::{Image, Room};
use outside::Store;
use std::alloc::Global;

/// The most bytes of an assembly file.
pub const ASSEMBLY_LIMIT: u32 = 262_144;

/// The image of a chip's source, in its room.
#[tactic(auto, using(crate::proofs::SourcesFilled::image_read, crate::proofs::SourcesFilled::image_stop, crate::proofs::SourcesFilled::image_order))]
fn load_source<S: Store>(
    alloc: Global,
    store: &mut S,
    chip: u8,
    name: &str,
    room: Room,
) -> Result<Image, Stop>
    ensures works { Works (S.input store.old) (S.input store.new)
        (image_for chip name.now room) result }
    ensures order { RefusesFrom (chip + 1) result }
    ensures inside { IfOk result (λ image. LiesIn room image.bytes) }
{
    let text = fetch(alloc, store, Purpose::Source(chip), name, ASSEMBLY_LIMIT)?;
    read_image(alloc, Some(chip), text.as_slice(), room)
}

/// Puts the image of its source into the chip with this number, where the plan has such a chip and it has a source.
#[tactic(auto, using(crate::proofs::SourcesFilled::filled_none, crate::proofs::SourcesFilled::filled_placeless, crate::proofs::SourcesFilled::same_placeless, crate::proofs::SourcesFilled::filled_some, crate::proofs::SourcesFilled::filled_stop, crate::proofs::SourcesFilled::has_room, crate::proofs::SourcesFilled::same_without))]
fn fill_at<S: Store>(alloc: Global, store: &mut S, mut plan: Plan, chip: u8) -> Result<Plan, Stop>
    ensures works { Works (S.input store.old) (S.input store.new) (filled_at chip plan) result }
    ensures order { RefusesFrom (chip + 1) result }
    ensures filled { IfOk result (λ filled.
        (bytes : List (ℕ × ℕ)) × (filled ≡ filled_plan plan chip bytes)) }
{
    let Some(name) = plan.source(chip) else {
        return Ok(plan);
    };
    let Some(room) = plan.room(chip) else {
        return Ok(plan);
    };
    let image = load_source(alloc, store, chip, name, room)?;
    plan.fill(chip, &image);
    Ok(plan)
}

/// Puts the image of its source into each chip that has one, the first chip first.
fn fill_sources<S: Store>(alloc: Global, store: &mut S, mut plan: Plan) -> Result<Plan, Stop>
    requires { length plan.chips ≤ MOST_CHIPS }
    ensures works { Works (S.input store.old) (S.input store.new)
        (filled_up_to MOST_CHIPS plan) result }
    ensures filled { IfOk result (λ filled. position wants_image filled.chips ≡ None) }
{
    for chip in 0..MOST_CHIPS as u8 {
        plan = fill_at(alloc, store, plan, chip)?;
    }
    Ok(plan)
}

/// The cartridge of a plan, with the images of its sources.
#[tactic(auto, using(crate::proofs::GamesLoaded::planned_stops, crate::proofs::GamesLoaded::planned_loaded, crate::proofs::GamesLoaded::cart_is, crate::proofs::GamesLoaded::cart_there))]
pub fn load_planned<S: Store>(alloc: Global, store: &mut S, plan: Plan) -> Result<Cart, Stop>
    requires { length plan.chips ≤ MOST_CHIPS }
    ensures { Works (S.input store.old) (S.input store.new) (planned_cart plan) result }
{
    let plan = fill_sources(alloc, store, plan)?;
    match plan.cart() {
        Ok(cart) => Ok(cart),
        Err(_) => unreachable!(),
    }
}
