// Modules in their rooms, linked. Each cause is tried over all of them before the next.
ghost use Rattle.std.specs.Prelude.{◌≡◌, ◌≤◌, ◌<◌, true, List, ℕ, Ok, Err, All, length, slice_get, IfOk, if◌then◌else◌};
ghost use Rattle.std.specs.List.{AllZip};
ghost use Rattle.text_lines.specs.ReadErrors.{Says, SaysSeen, StepsTo};
ghost use Rattle.f8_asm.specs.Image.{Ascends, everywhere, image_of};
ghost use Rattle.f8_asm.specs.Marks.{marks_with, is_free};
ghost use Rattle.f8_asm.specs.PassTwo.{is_inside};
ghost use Rattle.f8_link.specs.Linking.{IsLow, caused, stop_in, exports_given, imports_given, all_exports, all_imports};
ghost use Rattle.f8_link.specs.Linking.{all_inside, all_marked, all_written, values_of, named_value, linked_of};
ghost use Rattle.f8_link.specs.OneSource.{IsCompiled, IsOneSource, one_source, source_image, NoNameTwice, HasBytes};
ghost use Rattle.f8_link.specs.OneSource.{joined};

use crate::answers::{LinkAnswer, LinkCause, LinkFault};
use crate::fixes::{LinkStop, bytes_fixed};
use crate::linked::Linked;
use crate::parts::{Part, PartList};
use crate::values::Named;
use f8_asm::{Room, Symbols, Table, is_free, is_inside, mark, no_marks};
use std::alloc::Global;
use std::marker::Model;

/// The values of a module's imports, in their order. A contract sees that list.
#[derive(Drop)]
struct ImportValues {
    values: Vec<i64>,
}

impl Model for ImportValues {
    ghost use Rattle.std.specs.Prelude.{ℤ, List};

    ghost Value = { List ℤ };

    ghost view = { λ v. v.values.items };
}

impl ImportValues {
    /// The list of these values.
    fn from_vec(values: Vec<i64>) -> ImportValues
        ensures { result ≡ values.items }
    {
        ImportValues { values }
    }

    /// The values in order.
    fn as_slice(&self) -> &[i64]
        ensures { result.now ≡ self.now }
    {
        self.values.as_slice()
    }
}

/// Why modules aren't linked, where one of them isn't.
fn stop_in(number: usize, stop: LinkStop) -> LinkAnswer
    requires { number < 64 }
    ensures { result ≡ stop_in number stop }
{
    match stop {
        LinkStop::Fault(cause) => LinkAnswer::Fault(LinkFault {
            module: number as u8,
            cause,
        }),
        LinkStop::Memory => LinkAnswer::Memory,
    }
}

/// The value of a module's name, where the module begins at this address.
fn named_value(first: u16, named: Named) -> i64
    ensures { result ≡ named_value first named }
{
    match named {
        Named::Constant(value) => value,
        Named::Offset(offset) => i64::from(first) + i64::from(offset),
    }
}

/// Gives the exports of a module, each of which is new.
#[tactic(auto, unfolding(crate::specs::Linking::exports_given))]
fn give_exports(alloc: Global, names: &mut Symbols<i64>, part: &Part) -> Result<(), LinkStop>
    ensures { StepsTo result names.new (exports_given names.old part.now) }
{
    for (name, named) in part.object.exports() {
        if names.value_of(name).is_some() {
            return Err(LinkStop::Fault(LinkCause::Twice));
        }
        names.define(alloc, name, named_value(part.room.first, *named))?;
    }
    Ok(())
}

/// The exports of all modules with their values.
fn all_exports(alloc: Global, parts: &[Part]) -> Result<Symbols<i64>, LinkAnswer>
    requires { length parts.now ≤ 64 }
    ensures { Says result (all_exports parts.now) }
{
    let mut names = Symbols::new(alloc);
    for (number, part) in parts.iter().enumerate() {
        match give_exports(alloc, &mut names, part) {
            Ok(()) => {}
            Err(stop) => return Err(stop_in(number, stop)),
        }
    }
    Ok(names)
}

/// The values of a module's imports, each of which some module exports.
#[tactic(auto, unfolding(crate::specs::Linking::imports_given))]
fn imports_given(alloc: Global, names: &Symbols<i64>, part: &Part) -> Result<ImportValues, LinkStop>
    ensures { Says result (imports_given names.now part.now) }
{
    let mut values = Vec::new(alloc);
    for name in part.object.imports() {
        match names.value_of(name) {
            Some(value) => values.push(value)?,
            None => return Err(LinkStop::Fault(LinkCause::Missing)),
        }
    }
    Ok(ImportValues::from_vec(values))
}

/// The values of all modules' imports.
fn all_imports(
    alloc: Global,
    names: &Symbols<i64>,
    parts: &[Part],
) -> Result<Vec<ImportValues>, LinkAnswer>
    requires { length parts.now ≤ 64 }
    ensures { SaysSeen (λ all. all.items) result (all_imports names.now parts.now) }
{
    let mut all = Vec::new(alloc);
    for (number, part) in parts.iter().enumerate() {
        match imports_given(alloc, names, part) {
            Ok(values) => all.push(values)?,
            Err(stop) => return Err(stop_in(number, stop)),
        }
    }
    Ok(all)
}

/// Whether so many bytes from the first of a room on lie in it. All its addresses are below 65,536.
fn is_inside_room(room: Room, size: usize) -> bool
    ensures inside { result ≡ is_inside room room.first size }
    ensures low { (room.first ≤ 65535) × (room.last ≤ 65535) }
{
    is_inside(room, u32::from(room.first), size)
}

/// Whether each module's bytes lie in its room.
fn all_inside(parts: &[Part]) -> Result<(), LinkAnswer>
    requires { length parts.now ≤ 64 }
    ensures value { Says result (all_inside parts.now) }
    ensures low { IfOk result (λ _. All IsLow parts.now) }
{
    for (number, part) in parts.iter().enumerate() {
        if !is_inside_room(part.room, part.object.bytes().len()) {
            return Err(stop_in(number, LinkStop::Fault(LinkCause::Outside)));
        }
    }
    Ok(())
}

/// Marks so many addresses from the first of a room on, if none of them is marked. They lie in the room.
fn mark_part(marks: &mut Vec<bool>, room: Room, size: usize) -> Result<(), LinkCause>
    requires inside { is_inside room room.first size ≡ true }
    requires addresses { length marks.old.items ≡ 65536 }
    ensures marked { caused result marks.new.items
        ≡ (if is_free marks.old.items room.first size
        then Ok (marks_with marks.old.items room.first size)
        else Err LinkCause.Overlap) }
    ensures addresses { length marks.new.items ≡ 65536 }
{
    let first = usize::from(room.first);
    if !is_free(marks.as_slice(), first, size) {
        return Err(LinkCause::Overlap);
    }
    mark(marks.as_mut_slice(), first, size);
    Ok(())
}

/// Whether each module's bytes lie where no earlier module's do. All lie in their rooms.
fn all_marked(alloc: Global, parts: &[Part]) -> Result<Vec<bool>, LinkAnswer>
    requires few { length parts.now ≤ 64 }
    requires inside { all_inside parts.now ≡ Ok tt }
    ensures { SaysSeen (λ marks. marks.items) result (all_marked 65536 parts.now) }
{
    let mut marks = no_marks(alloc)?;
    for (number, part) in parts.iter().enumerate() {
        match mark_part(&mut marks, part.room, part.object.bytes().len()) {
            Ok(()) => {}
            Err(cause) => return Err(stop_in(number, LinkStop::Fault(cause))),
        }
    }
    Ok(marks)
}

/// The values of the imports of the module with this number.
fn values_at(values: &[ImportValues], number: usize) -> &[i64]
    ensures { result.now ≡ values_of (slice_get values.now number) }
{
    match values.get(number) {
        Some(values) => values.as_slice(),
        None => &[],
    }
}

/// The bytes of all modules at their addresses, with the values of their imports.
fn all_written(alloc: Global, values: &[ImportValues], parts: &[Part]) -> Result<Table, LinkAnswer>
    requires { length parts.now ≤ 64 }
    ensures { Says result (all_written 65536 values.now parts.now) }
{
    let mut table = Table::new(alloc)?;
    for (number, part) in parts.iter().enumerate() {
        match bytes_fixed(alloc, values_at(values, number), part) {
            Ok(bytes) => table.write(u32::from(part.room.first), bytes.as_slice()),
            Err(stop) => return Err(stop_in(number, stop)),
        }
    }
    Ok(table)
}

/// Modules linked, each at the first address of its room: the picture of all their lines in one text.
///
/// # Errors
///
/// `Fault`: the first fault. Each cause is tried over all modules in order before the next: a name exported twice, an
/// import that none exports, a byte outside a module's room, one on an earlier module's, a value that doesn't fit its place.
/// `Memory`: memory is missing.
#[tactic(auto, unfolding(crate::specs::Linking::linked_of, crate::specs::Linking::linked_in))]
pub fn link(alloc: Global, parts: &PartList) -> Result<Linked, LinkAnswer>
    requires { length parts.now ≤ 64 }
    ensures value { Says result (linked_of parts.now) }
    ensures ascent { IfOk result (λ linked. Ascends linked.bytes) }
    ensures source { (texts : List (List ℕ)) → AllZip IsCompiled texts parts.now
        → IfOk result (λ linked. IsOneSource linked (source_image (one_source texts parts.now))) }
    ensures plain { (texts : List (List ℕ)) → AllZip IsCompiled texts parts.now → NoNameTwice texts
        → IfOk result (λ linked.
        HasBytes linked.bytes (image_of (joined texts parts.now) everywhere)) }
{
    let parts = parts.as_slice();
    let names = all_exports(alloc, parts)?;
    let values = all_imports(alloc, &names, parts)?;
    all_inside(parts)?;
    all_marked(alloc, parts)?;
    let table = all_written(alloc, values.as_slice(), parts)?;
    Ok(Linked::of(table.ascending(alloc)?, names))
}
