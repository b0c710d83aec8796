// The bytes of a generated cartridge.
ghost use Rattle.std.specs.Prelude.{◌≡◌, IfOk};
ghost use Rattle.console_spec.specs.Generator.{generated};

use super::draws::Draws;
use std::alloc::{AllocError, Global};

/// How many opcodes are drawn.
const DRAWN: usize = 12_285;

/// The jump to address 0 behind them.
const JUMP: [u8; 3] = [0x29, 0x00, 0x00];

/// The 12,288 bytes of a generated cartridge, from its seed.
pub fn generated_bytes(alloc: Global, seed: u32) -> Result<Vec<u8>, AllocError>
    ensures { IfOk result (λ bytes. bytes.items ≡ generated seed) }
{
    let mut draws = Draws { state: seed };
    let mut bytes = Vec::with_capacity(alloc, DRAWN + JUMP.len())?;
    for _ in 0..DRAWN {
        bytes.push(draws.next_opcode())?;
    }
    bytes.extend_from_slice(&JUMP)?;
    Ok(bytes)
}
