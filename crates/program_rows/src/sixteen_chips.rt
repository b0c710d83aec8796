// As many chips as there may be, in several mixes of the kinds. Each chip that has a ROM has a source, with a jump to the next chip's.
use super::calls::{File, Row, SERVED, Text, ended};
use super::seats::{I, P, S, Seat, check_rows_over};
use std::test::Fail;

const PSUS: &str = "format = 1\nchip = [\
     {kind='3851',base=0,ports=4,source='0'},{kind='3851',base=1024,ports=8,source='1'},\
     {kind='3851',base=2048,ports=12,source='2'},{kind='3851',base=3072,ports=16,source='3'},\
     {kind='3851',base=4096,ports=20,source='4'},{kind='3851',base=5120,ports=24,source='5'},\
     {kind='3851',base=6144,ports=28,source='6'},{kind='3851',base=7168,ports=32,source='7'},\
     {kind='3851',base=8192,ports=36,source='8'},{kind='3851',base=9216,ports=40,source='9'},\
     {kind='3851',base=10240,ports=44,source='10'},{kind='3851',base=11264,ports=48,source='11'},\
     {kind='3851',base=12288,ports=52,source='12'},{kind='3851',base=13312,ports=56,source='13'},\
     {kind='3851',base=14336,ports=60,source='14'},{kind='3851',base=15360,ports=64,source='15'},\
     ]\n";

const SMIS: &str = "format = 1\nchip = [\
     {kind='3853',rom_page=0,rom_pages=1,source='0'},{kind='3853',rom_page=4,rom_pages=1,source='1'},\
     {kind='3853',rom_page=8,rom_pages=1,source='2'},{kind='3853',rom_page=12,rom_pages=1,source='3'},\
     {kind='3853',rom_page=16,rom_pages=1,source='4'},{kind='3853',rom_page=20,rom_pages=1,source='5'},\
     {kind='3853',rom_page=24,rom_pages=1,source='6'},{kind='3853',rom_page=28,rom_pages=1,source='7'},\
     {kind='3853',rom_page=32,rom_pages=1,source='8'},{kind='3853',rom_page=36,rom_pages=1,source='9'},\
     {kind='3853',rom_page=40,rom_pages=1,source='10'},{kind='3853',rom_page=44,rom_pages=1,source='11'},\
     {kind='3853',rom_page=48,rom_pages=1,source='12'},{kind='3853',rom_page=52,rom_pages=1,source='13'},\
     {kind='3853',rom_page=56,rom_pages=1,source='14'},{kind='3853',rom_page=60,rom_pages=1,source='15'},\
     ]\n";

const MIXED: &str = "format = 1\nchip = [\
     {kind='3853',rom_page=0,rom_pages=1,source='0'},{kind='3851',base=1024,ports=8,source='1'},\
     {kind='3853',rom_page=8,rom_pages=1,source='2'},{kind='3851',base=3072,ports=16,source='3'},\
     {kind='3851',base=4096,ports=20,source='4'},{kind='3853',rom_page=20,rom_pages=1,source='5'},\
     {kind='3853',rom_page=24,rom_pages=1,source='6'},{kind='3851',base=7168,ports=32,source='7'},\
     {kind='3853',rom_page=32,rom_pages=1,source='8'},{kind='3851',base=9216,ports=40,source='9'},\
     {kind='3851',base=10240,ports=44,source='10'},{kind='3853',rom_page=44,rom_pages=1,source='11'},\
     {kind='3853',rom_page=48,rom_pages=1,source='12'},{kind='3851',base=13312,ports=56,source='13'},\
     {kind='3851',base=14336,ports=60,source='14'},{kind='3853',rom_page=60,rom_pages=1,source='15'},\
     ]\n";

const BETWEEN_PIOS: &str = "format = 2\nchip = [\
     {kind='3861',ports=4},{kind='3851',base=0,ports=8,source='0'},{kind='3853',pages=['rom 04'],source='1'},\
     {kind='3861',ports=16},{kind='3851',base=2048,ports=20,source='2'},{kind='3861',ports=24},{kind='3861',ports=28},\
     {kind='3853',pages=['rom 0C'],source='3'},{kind='3851',base=4096,ports=36,source='4'},\
     {kind='3853',pages=['rom 14'],source='5'},{kind='3861',ports=44},{kind='3851',base=6144,ports=48,source='6'},\
     {kind='3853',pages=['rom 1C'],source='7'},{kind='3851',base=8192,ports=56,source='8_of_9'},{kind='3861',ports=60},\
     {kind='3861',ports=64},\
     ]\n";

const PIOS_FIRST: &str = "format = 2\nchip = [\
     {kind='3861',ports=4},{kind='3861',ports=8},{kind='3861',ports=12},{kind='3861',ports=16},{kind='3861',ports=20},\
     {kind='3861',ports=24},{kind='3861',ports=28},{kind='3861',ports=32},{kind='3861',ports=36},{kind='3861',ports=40},\
     {kind='3861',ports=44},{kind='3861',ports=48},{kind='3861',ports=52},{kind='3861',ports=56},{kind='3861',ports=60},\
     {kind='3853',pages=['rom 00'],source='0_of_1'},\
     ]\n";

/// The jumps: each from the first address of a ROM to that of the next, and from the last one to the first.
static JUMPS: [File; 18] = [
    ("0", " ORG 0\n JMP 1024\n"),
    ("1", " ORG 1024\n JMP 2048\n"),
    ("2", " ORG 2048\n JMP 3072\n"),
    ("3", " ORG 3072\n JMP 4096\n"),
    ("4", " ORG 4096\n JMP 5120\n"),
    ("5", " ORG 5120\n JMP 6144\n"),
    ("6", " ORG 6144\n JMP 7168\n"),
    ("7", " ORG 7168\n JMP 8192\n"),
    ("8", " ORG 8192\n JMP 9216\n"),
    ("9", " ORG 9216\n JMP 10240\n"),
    ("10", " ORG 10240\n JMP 11264\n"),
    ("11", " ORG 11264\n JMP 12288\n"),
    ("12", " ORG 12288\n JMP 13312\n"),
    ("13", " ORG 13312\n JMP 14336\n"),
    ("14", " ORG 14336\n JMP 15360\n"),
    ("15", " ORG 15360\n JMP 0\n"),
    ("8_of_9", " ORG 8192\n JMP 0\n"),
    ("0_of_1", " ORG 0\n JMP 0\n"),
];

/// Reset takes 14 Φ, and a jump 22.
const ROUND_OF_16: &str = ended!(
    "verdict whole\n\
     stop done\n\
     regs P=0000 P1=0000 D0=0000 D1=0000 A=00 IS=00 W=00\n",
    "total 16 instructions 366 phi\n"
);

const ROUND_OF_9: &str = ended!(
    "verdict whole\n\
     stop done\n\
     regs P=0000 P1=0000 D0=0000 D1=0000 A=00 IS=00 W=00\n",
    "total 9 instructions 212 phi\n"
);

const ROUND_OF_1: &str = ended!(
    "verdict whole\n\
     stop done\n\
     regs P=0000 P1=0000 D0=0000 D1=0000 A=00 IS=00 W=00\n",
    "total 1 instructions 36 phi\n"
);

// The chips of each rack, in the order of the description, and a round through their ROMs.
static PSUS_SEATS: [Seat; 16] = [P; 16];

static PSUS_ROUND: [Row; 1] = [Row {
    files: &[("cart", PSUS), ("script", "steps 16\n")],
    words: &["play", "cart", "script"],
    text: Text::All(ROUND_OF_16),
    ..SERVED
}];

static SMIS_SEATS: [Seat; 16] = [S; 16];

static SMIS_ROUND: [Row; 1] = [Row {
    files: &[("cart", SMIS), ("script", "steps 16\n")],
    words: &["play", "cart", "script"],
    text: Text::All(ROUND_OF_16),
    ..SERVED
}];

static MIXED_SEATS: [Seat; 16] = [S, P, S, P, P, S, S, P, S, P, P, S, S, P, P, S];

static MIXED_ROUND: [Row; 1] = [Row {
    files: &[("cart", MIXED), ("script", "steps 16\n")],
    words: &["play", "cart", "script"],
    text: Text::All(ROUND_OF_16),
    ..SERVED
}];

static BETWEEN_PIOS_SEATS: [Seat; 16] = [I, P, S, I, P, I, I, S, P, S, I, P, S, P, I, I];

static BETWEEN_PIOS_ROUND: [Row; 1] = [Row {
    files: &[("cart", BETWEEN_PIOS), ("script", "steps 9\n")],
    words: &["play", "cart", "script"],
    text: Text::All(ROUND_OF_9),
    ..SERVED
}];

static PIOS_FIRST_SEATS: [Seat; 16] = [I, I, I, I, I, I, I, I, I, I, I, I, I, I, I, S];

static PIOS_FIRST_ROUND: [Row; 1] = [Row {
    files: &[("cart", PIOS_FIRST), ("script", "steps 1\n")],
    words: &["play", "cart", "script"],
    text: Text::All(ROUND_OF_1),
    ..SERVED
}];

#[test]
fn plays_sixteen_psus(rt: HostRuntime) -> Result<(), Fail> {
    check_rows_over(&rt, rt.alloc(), &PSUS_SEATS, &JUMPS, &PSUS_ROUND)
}

#[test]
fn plays_sixteen_smis(rt: HostRuntime) -> Result<(), Fail> {
    check_rows_over(&rt, rt.alloc(), &SMIS_SEATS, &JUMPS, &SMIS_ROUND)
}

#[test]
fn plays_a_mix(rt: HostRuntime) -> Result<(), Fail> {
    check_rows_over(&rt, rt.alloc(), &MIXED_SEATS, &JUMPS, &MIXED_ROUND)
}

#[test]
fn plays_chips_between_pios(rt: HostRuntime) -> Result<(), Fail> {
    check_rows_over(
        &rt,
        rt.alloc(),
        &BETWEEN_PIOS_SEATS,
        &JUMPS,
        &BETWEEN_PIOS_ROUND,
    )
}

#[test]
fn plays_a_smi_behind_pios(rt: HostRuntime) -> Result<(), Fail> {
    check_rows_over(
        &rt,
        rt.alloc(),
        &PIOS_FIRST_SEATS,
        &JUMPS,
        &PIOS_FIRST_ROUND,
    )
}
