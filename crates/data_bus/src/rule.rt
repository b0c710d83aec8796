// By which rule a code is arbitrated.
ghost use Rattle.std.specs.Prelude.{◌≡◌, ◌<◌};
ghost use Rattle.f8_spec.specs.BusArbitration.{rule_of as rule_by_table};

use f8_spec::BusRule;
use romc_table::Romc;

/// How a step with this code is arbitrated.
pub(crate) fn rule_of(romc: Romc) -> BusRule
    ensures table { result ≡ rule_by_table romc }
    ensures below { romc < 32 }
{
    match romc {
        Romc::FETCH
        | Romc::DISPLACEMENT
        | Romc::READ_DATA
        | Romc::OPERAND
        | Romc::JUMP_LOW
        | Romc::LOAD_DATA_LOW
        | Romc::LOAD_DATA_HIGH => BusRule::Read,
        Romc::TELL_DATA_HIGH
        | Romc::TELL_STACK_HIGH
        | Romc::TELL_DATA_LOW
        | Romc::TELL_STACK_LOW
        | Romc::TELL_PROGRAM_LOW
        | Romc::TELL_PROGRAM_HIGH => BusRule::Read,
        Romc::STORE_DATA => BusRule::Store,
        Romc::VECTOR_LOW | Romc::VECTOR_HIGH => BusRule::Vector,
        Romc::WRITE_PORT => BusRule::PortWrite,
        Romc::READ_PORT => BusRule::PortRead,
        _ => BusRule::NoChip,
    }
}
