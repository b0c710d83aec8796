// The modules of a plan, and what they are linked to.
ghost use Rattle.std.specs.Prelude.{◌≡◌, ◌+◌, ◌<◌, ◌≤◌, length, IfOk};
ghost use Rattle.f8_link.specs.Plans.{module_seen};
ghost use Rattle.loader.specs.Games.{module_for, part_added, parts_of, linked_by};
ghost use Rattle.loader.specs.Works.{Works, RefusesFrom};

use super::fetching::fetch;
use super::purposes::Purpose;
use super::readings::{link_modules, read_module, read_modules};
use super::refusals::Stop;
use super::sources::ASSEMBLY_LIMIT;
use f8_link::{Linked, ModuleLine, ModuleList, Object, Part, PartList};
use outside::Store;
use std::alloc::Global;

/// The most bytes of a plan.
const PLAN_LIMIT: u32 = 65_536;

/// The object of a module's text.
fn load_module<S: Store>(
    alloc: Global,
    store: &mut S,
    number: u8,
    name: &str,
) -> Result<Object, Stop>
    ensures works { Works (S.input store.old) (S.input store.new)
        (module_for number name.now) result }
    ensures order { RefusesFrom (number + 1) result }
{
    let text = fetch(alloc, store, Purpose::Module(number), name, ASSEMBLY_LIMIT)?;
    read_module(alloc, number, text.as_slice())
}

/// The modules so far, with one more.
fn add_module<S: Store>(
    alloc: Global,
    store: &mut S,
    mut parts: PartList,
    number: u8,
    line: &ModuleLine,
) -> Result<PartList, Stop>
    ensures works { Works (S.input store.old) (S.input store.new)
        (part_added number parts (module_seen line.now)) result }
    ensures order { RefusesFrom (number + 1) result }
    ensures more { IfOk result (λ more. length more ≡ length parts + 1) }
{
    let object = load_module(alloc, store, number, line.file.as_str())?;
    let room = line.room;
    match parts.push(Part { object, room }) {
        Ok(()) => Ok(parts),
        Err(_) => Err(Stop::Memory),
    }
}

/// The modules of a plan, each fetched and compiled before the next.
fn load_modules<S: Store>(
    alloc: Global,
    store: &mut S,
    modules: &ModuleList,
) -> Result<PartList, Stop>
    ensures works { Works (S.input store.old) (S.input store.new) (parts_of modules.now) result }
    ensures few { IfOk result (λ parts. length parts ≤ 64) }
    ensures planned { IfOk result (λ parts. length modules.now ≤ 64) }
{
    let mut parts = PartList::new(alloc);
    for (number, line) in modules.as_slice().iter().enumerate() {
        parts = add_module(alloc, store, parts, number as u8, line)?;
    }
    Ok(parts)
}

/// What the modules of a plan are linked to: the plan, and then the text of each of its modules, each of them fetched and read before the next.
/// The plan has at most 65,536 bytes, and a module 262,144. A file that the plan names twice is fetched twice.
///
/// # Errors
///
/// As those of `load_game`.
pub fn load_linked<S: Store>(alloc: Global, store: &mut S, plan: &str) -> Result<Linked, Stop>
    ensures { Works (S.input store.old) (S.input store.new) (linked_by plan.now) result }
{
    let text = fetch(alloc, store, Purpose::Plan, plan, PLAN_LIMIT)?;
    let modules = read_modules(alloc, text.as_slice())?;
    let parts = load_modules(alloc, store, &modules)?;
    link_modules(alloc, &parts)
}
