// The table of a chip.
ghost use Rattle.std.specs.Prelude.{◌≡◌, ◌≤◌, length, option_map, string_bytes};
ghost use Rattle.toml.specs.View.{table_view};
ghost use Rattle.text_lines.specs.ReadErrors.{SaysSeen};
ghost use Rattle.cartridge.specs.Keys.{known as known_told, psu_keys, smi_keys};
ghost use Rattle.cartridge.specs.ChipTables.{psu_of as psu_told, three_runs as three_told, runs_of as runs_told};
ghost use Rattle.cartridge.specs.ChipTables.{smi_with as smi_given, smi_of as smi_told, pio_of as pio_told, known_pio};
ghost use Rattle.cartridge.specs.ChipTables.{chip_of as chip_told, named_source as source_told};
ghost use Rattle.cartridge.specs.ChipTables.{source_with as source_given};
ghost use Rattle.cartridge.specs.Rooms.{psu_room as room_told};
ghost use Rattle.cartridge.specs.Plans.{seen_chip, seen_source};

use super::content::{mask_at, rom_at, source_at};
use super::format::CartFormat;
use super::keys::Key;
use super::known::known;
use super::page_run::{PageRun, pages_of, run_at};
use super::page_texts::runs_at;
use super::refusal::{CartCause, KeyFault, TableStop};
use super::rom_room::{rom_room, rom_size, room_size};
use super::rom_source::ChipSource;
use super::values::{kind_at, maybe_address, maybe_byte, multiple_at, number_at, truth_at};
use chip_face::{ChipKind, ChipSpec, PSU_ROM_SIZE, PageList, PageSort, PowerOn, USUAL_POWER};
use f8_asm::Room;
use std::alloc::Global;
use toml::Table;

/// A chip with the bytes that its digits give, its source, where it has one, and what is said of its power-on.
#[derive(Debug, Drop)]
pub struct ChipPlan {
    pub spec: ChipSpec,
    pub source: Option<ChipSource>,
    pub power: PowerOn,
}

/// The source with a name, whose image may have these addresses.
fn named_source(room: Room, name: Option<String>) -> Option<ChipSource>
    ensures { option_map seen_source result ≡ source_told room (option_map string_bytes name) }
{
    let name = name?;
    Some(ChipSource { name, room })
}

/// The source whose image may have these addresses. Where there are none, a source is out of range.
fn source_with(
    alloc: Global,
    room: Option<Room>,
    table: &Table,
) -> Result<Option<ChipSource>, TableStop>
    ensures { SaysSeen (option_map seen_source) result (source_given room (table_view table.now)) }
{
    let Some(room) = room else {
        source_at(alloc, table, 0)?;
        return Ok(None);
    };
    let name = source_at(alloc, table, room_size(room))?;
    Ok(named_source(room, name))
}

/// The addresses of a 3851.
fn psu_room(base: u16) -> Room
    requires { base ≤ 64512 }
    ensures { result ≡ room_told base }
{
    Room {
        first: base,
        last: base + 1023,
    }
}

/// A 3851.
#[tactic(auto, unfolding(crate::specs::ChipTables::psu_of))]
fn psu_of(alloc: Global, table: &Table) -> Result<ChipPlan, TableStop>
    ensures { SaysSeen seen_chip result (psu_told (table_view table.now)) }
{
    let base = multiple_at(table, Key::Base, 0, 64_512, 1024)?;
    let ports = multiple_at(table, Key::Ports, 4, 252, 4)? as u8;
    let vector = number_at(table, Key::Vector, 65_535)?;
    let wired = truth_at(table, Key::Interrupt)?;
    let start = maybe_address(table, Key::Start)?;
    let rom = mask_at(alloc, table, PSU_ROM_SIZE)?;
    let source = source_with(alloc, Some(psu_room(base)), table)?;
    let spec = ChipSpec::Psu {
        base,
        rom,
        ports,
        vector,
        wired,
    };
    let power = PowerOn { fill: None, start };
    Ok(ChipPlan {
        spec,
        source,
        power,
    })
}

/// Three runs of pages, of which none has a page of an earlier one.
pub fn three_runs(alloc: Global, table: &Table) -> Result<Vec<PageRun>, TableStop>
    ensures { SaysSeen (λ runs. runs.items) result (three_told (table_view table.now)) }
{
    let rom = run_at(table, PageSort::Rom, Key::RomPage, Key::RomPages, &[])?;
    let ram = run_at(table, PageSort::Ram, Key::RamPage, Key::RamPages, &[rom])?;
    let void = run_at(
        table,
        PageSort::Void,
        Key::VoidPage,
        Key::VoidPages,
        &[rom, ram],
    )?;
    Ok(vec![in alloc; rom, ram, void]?)
}

/// The runs of pages of a 3853.
fn runs_of(alloc: Global, format: CartFormat, table: &Table) -> Result<Vec<PageRun>, TableStop>
    ensures { SaysSeen (λ runs. runs.items) result (runs_told format (table_view table.now)) }
{
    match format {
        CartFormat::One => three_runs(alloc, table),
        CartFormat::Two => runs_at(alloc, table),
    }
}

/// A 3853 with these pages.
#[tactic(auto, unfolding(crate::specs::ChipTables::smi_with))]
fn smi_with(alloc: Global, pages: PageList, table: &Table) -> Result<ChipPlan, TableStop>
    requires { length pages ≤ 256 }
    ensures { SaysSeen seen_chip result (smi_given pages (table_view table.now)) }
{
    let wired = truth_at(table, Key::Interrupt)?;
    let fill = maybe_byte(table, Key::Fill)?;
    let start = maybe_address(table, Key::Start)?;
    let rom = rom_at(alloc, table, rom_size(&pages))?;
    let source = source_with(alloc, rom_room(&pages), table)?;
    let spec = ChipSpec::Smi { pages, rom, wired };
    let power = PowerOn { fill, start };
    Ok(ChipPlan {
        spec,
        source,
        power,
    })
}

/// A 3853.
#[tactic(auto, unfolding(crate::specs::ChipTables::smi_of))]
fn smi_of(alloc: Global, format: CartFormat, table: &Table) -> Result<ChipPlan, TableStop>
    ensures { SaysSeen seen_chip result (smi_told format (table_view table.now)) }
{
    let runs = runs_of(alloc, format, table)?;
    let pages = pages_of(alloc, runs.as_slice())?;
    smi_with(alloc, pages, table)
}

/// A 3861, which has no memory and no counters.
#[tactic(auto, unfolding(crate::specs::ChipTables::pio_of))]
fn pio_of(table: &Table) -> Result<ChipPlan, TableStop>
    ensures { SaysSeen seen_chip result (pio_told (table_view table.now)) }
{
    let ports = multiple_at(table, Key::Ports, 4, 252, 4)? as u8;
    let vector = number_at(table, Key::Vector, 65_535)?;
    let wired = truth_at(table, Key::Interrupt)?;
    Ok(ChipPlan {
        spec: ChipSpec::Pio {
            ports,
            vector,
            wired,
        },
        source: None,
        power: USUAL_POWER,
    })
}

/// The keys of a 3851 in format 1.
const PSU_KEYS: [Key; 7] = [
    Key::Kind,
    Key::Interrupt,
    Key::Rom,
    Key::Source,
    Key::Base,
    Key::Ports,
    Key::Vector,
];

/// The keys of a 3851 in format 2.
const PSU_KEYS_TWO: [Key; 8] = [
    Key::Kind,
    Key::Interrupt,
    Key::Rom,
    Key::Source,
    Key::Base,
    Key::Ports,
    Key::Vector,
    Key::Start,
];

/// The keys of a 3853 in format 1.
const SMI_KEYS: [Key; 10] = [
    Key::Kind,
    Key::Interrupt,
    Key::Rom,
    Key::Source,
    Key::RomPage,
    Key::RomPages,
    Key::RamPage,
    Key::RamPages,
    Key::VoidPage,
    Key::VoidPages,
];

/// The keys of a 3853 in format 2.
const SMI_KEYS_TWO: [Key; 7] = [
    Key::Kind,
    Key::Interrupt,
    Key::Rom,
    Key::Source,
    Key::Pages,
    Key::Fill,
    Key::Start,
];

/// The keys of a 3861, in format 2.
const PIO_KEYS: [Key; 4] = [Key::Kind, Key::Interrupt, Key::Ports, Key::Vector];

/// Refuses the table of a 3851 with a key that its format doesn't know.
fn known_of_psu(format: CartFormat, table: &Table) -> Result<(), KeyFault>
    ensures { result ≡ known_told (psu_keys format) (table_view table.now) }
{
    match format {
        CartFormat::One => known(&PSU_KEYS, table),
        CartFormat::Two => known(&PSU_KEYS_TWO, table),
    }
}

/// Refuses the table of a 3853 with a key that its format doesn't know.
fn known_of_smi(format: CartFormat, table: &Table) -> Result<(), KeyFault>
    ensures { result ≡ known_told (smi_keys format) (table_view table.now) }
{
    match format {
        CartFormat::One => known(&SMI_KEYS, table),
        CartFormat::Two => known(&SMI_KEYS_TWO, table),
    }
}

/// Refuses a 3861 in format 1, which has none, and its table with a key that format 2 doesn't know.
fn known_of_pio(format: CartFormat, table: &Table) -> Result<(), KeyFault>
    ensures { result ≡ known_pio format (table_view table.now) }
{
    match format {
        CartFormat::One => Err(KeyFault {
            key: Key::Kind,
            cause: CartCause::Range,
        }),
        CartFormat::Two => known(&PIO_KEYS, table),
    }
}

/// The chip of a table.
#[tactic(auto, unfolding(crate::specs::ChipTables::chip_of))]
pub fn chip_of(alloc: Global, format: CartFormat, table: &Table) -> Result<ChipPlan, TableStop>
    ensures { SaysSeen seen_chip result (chip_told format (table_view table.now)) }
{
    match kind_at(table)? {
        ChipKind::Psu => {
            known_of_psu(format, table)?;
            psu_of(alloc, table)
        }
        ChipKind::Smi => {
            known_of_smi(format, table)?;
            smi_of(alloc, format, table)
        }
        ChipKind::Pio => {
            known_of_pio(format, table)?;
            pio_of(table)
        }
    }
}
