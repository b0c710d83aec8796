// The flags that count at an address: those that are read before they are written.
use super::effects::is_read;
use abs_step::instruction_at;
use case_step::{Part, parts_read, writes_flags};
use f8_ops::{Op, Row, length, row_of};
use memory_map::Map;
use std::alloc::{AllocError, Global};

/// Sign, carry, zero and overflow: whether each counts.
pub type LiveFlags = [bool; 4];

/// The flags, in the order of the status word.
const FLAGS: [Part; 4] = [Part::Sign, Part::Carry, Part::Zero, Part::Overflow];

/// How often all addresses are looked at, at most. It is advice alone: where that is too seldom, fewer flags count.
const MOST_PASSES: u32 = 32;

/// By address the flags that count there. Where the code doesn't tell where an instruction leads all of them do.
#[derive(Drop)]
pub struct Live {
    at: Vec<LiveFlags>,
}

impl Live {
    /// Those of a cartridge, by a map of its chips.
    pub fn of(alloc: Global, map: &Map) -> Result<Live, AllocError> {
        let mut at = Vec::new(alloc);
        at.resize(65_536, [false; 4])?;
        let mut live = Live { at };
        for _ in 0..MOST_PASSES {
            if !live.pass(map) {
                break;
            }
        }
        Ok(live)
    }

    /// The flags that count at an address.
    pub fn flags(&self, at: u16) -> LiveFlags {
        self.at.get(usize::from(at)).copied().unwrap_or([true; 4])
    }

    /// Looks at each address, the last one first, and tells whether more flags count somewhere.
    fn pass(&mut self, map: &Map) -> bool {
        let mut is_changed = false;
        for at in (0..=65_535).rev() {
            let Some(op) = instruction_at(map, at) else {
                continue;
            };
            let flags = self.before(op, self.behind(op, at, map));
            if flags != self.flags(at) {
                if let Some(own) = self.at.get_mut(usize::from(at)) {
                    *own = flags;
                    is_changed = true;
                }
            }
        }
        is_changed
    }

    /// Those that count before an instruction, by those that do behind it.
    fn before(&self, op: Op, behind: LiveFlags) -> LiveFlags {
        let reads = parts_read(op);
        let is_written = writes_flags(op);
        let mut flags = behind;
        for place in 0..4 {
            flags[place] = is_read(&reads, FLAGS[place]) || behind[place] && !is_written;
        }
        flags
    }

    /// Those that count where an instruction leads.
    fn behind(&self, op: Op, at: u16, map: &Map) -> LiveFlags {
        let next = at.wrapping_add(u16::from(length(op)));
        let first = map.byte(at.wrapping_add(1));
        match row_of(op) {
            Row::Return | Row::CallK | Row::JumpQ => [true; 4],
            Row::Call | Row::Jump => match (first, map.byte(at.wrapping_add(2))) {
                (Some(high), Some(low)) => self.flags(u16::from_be_bytes([high, low])),
                _ => [true; 4],
            },
            Row::Branch | Row::BranchIsar => match first {
                Some(by) => self.either(next, displaced(at.wrapping_add(1), by)),
                None => [true; 4],
            },
            _ => self.flags(next),
        }
    }

    /// Those that count at either address.
    fn either(&self, first: u16, second: u16) -> LiveFlags {
        let other = self.flags(second);
        let mut flags = self.flags(first);
        for place in 0..4 {
            flags[place] = flags[place] || other[place];
        }
        flags
    }
}

/// An address with a displacement, which counts from 128 on as less than 0.
fn displaced(at: u16, by: u8) -> u16 {
    if by < 128 {
        at.wrapping_add(u16::from(by))
    } else {
        at.wrapping_sub(256 - u16::from(by))
    }
}
