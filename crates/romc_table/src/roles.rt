// Who drives the byte of a step, and by which counter.
ghost use Rattle.std.specs.Prelude.{◌≡◌};
ghost use Rattle.f8_spec.specs.BusCodes.{driver_of as driver_by_table, counter_of as counter_by_table};

use super::Romc;
use f8_spec::{Counter, Driver};

/// Who drives the byte in a step with this code (Mostek 3850 data sheet, ROMC states). At 1C it is `Cpu`, though it depends on
/// the instruction whether the CPU gives a byte.
pub fn driver_of(romc: Romc) -> Driver
    ensures { result ≡ driver_by_table romc }
{
    match romc {
        Romc::FETCH
        | Romc::DISPLACEMENT
        | Romc::READ_DATA
        | Romc::OPERAND
        | Romc::JUMP_LOW
        | Romc::LOAD_DATA_LOW
        | Romc::LOAD_DATA_HIGH => Driver::Memory,
        Romc::TELL_DATA_HIGH
        | Romc::TELL_STACK_HIGH
        | Romc::TELL_DATA_LOW
        | Romc::TELL_STACK_LOW
        | Romc::TELL_PROGRAM_LOW
        | Romc::TELL_PROGRAM_HIGH => Driver::CounterByte,
        Romc::VECTOR_LOW | Romc::VECTOR_HIGH => Driver::Vector,
        Romc::READ_PORT => Driver::Port,
        Romc::RETURN | Romc::SAVE_NEXT | Romc::ACKNOWLEDGE | Romc::EXCHANGE => Driver::Nobody,
        _ => Driver::Cpu,
    }
}

/// The counter at which the byte of a step with this code is read or stored, or of which a byte is told, and `NoCounter` where there
/// is none (Mostek 3851 and 3853 data sheets, ROMC states).
pub fn counter_of(romc: Romc) -> Counter
    ensures { result ≡ counter_by_table romc }
{
    match romc {
        Romc::FETCH
        | Romc::DISPLACEMENT
        | Romc::OPERAND
        | Romc::JUMP_LOW
        | Romc::LOAD_DATA_LOW
        | Romc::LOAD_DATA_HIGH
        | Romc::TELL_PROGRAM_LOW
        | Romc::TELL_PROGRAM_HIGH => Counter::Pc0,
        Romc::TELL_STACK_HIGH | Romc::TELL_STACK_LOW => Counter::Pc1,
        Romc::READ_DATA | Romc::STORE_DATA | Romc::TELL_DATA_HIGH | Romc::TELL_DATA_LOW =>
            Counter::Dc0,
        _ => Counter::NoCounter,
    }
}
