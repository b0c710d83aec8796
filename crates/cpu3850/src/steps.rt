// The bus steps of each instruction.
ghost use Rattle.std.specs.Prelude.{◌≡◌, ◌==◌, ◌<◌, ◌≤◌, ◌++◌, [], ◌∷◌, ◌-◌, ◌*◌, true, false, if◌then◌else◌, map};
ghost use Rattle.std.specs.Prelude.{sum_by, length, take, slice_get};
ghost use Rattle.f8_spec.specs.MicroSteps.{steps_before_fetch};
ghost use Rattle.f8_spec.specs.BusCodes.{driver_of as driver_by_table};
ghost use Rattle.f8_spec.specs.Instructions.{clocks_of, step_clocks};
ghost use Rattle.cpu3850.specs.CpuSteps.{bus_step, listed};

use f8_ops::{Op, Row, has_long_fetch, row_of, step_phi};
use romc_table::{Driver, Romc, driver_of};
use std::marker::Model;

/// The steps of the longest list: four, and the last fetch.
const MOST_STEPS: usize = 5;

/// A bus step as the CPU asks for it: its code, and whether it is a long one, of 6 Φ in place of 4 (Mostek 3850 data sheet).
#[derive(Clone, Copy, Debug, PartialEq, Eq)]
pub struct Step {
    pub romc: Romc,
    pub long: bool,

    /// Who drives the byte, which the code alone tells but for 1C: there the CPU drives the number of a port, and else nobody drives.
    pub driver: Driver,
}

/// What a list of steps is kept as: the first `count` of the items.
#[derive(Clone, Copy, Debug)]
pub struct StepRow {
    pub items: [Step; MOST_STEPS],
    pub count: u8,
}

/// A list of at most five steps. Contracts see the list.
#[derive(Debug, Drop)]
pub struct Steps {
    row: StepRow,
}

impl Model for Steps {
    ghost use Rattle.std.specs.Prelude.{List};
    ghost use Rattle.cpu3850.specs.declared.steps.Step.{Step};
    ghost use Rattle.cpu3850.specs.StepRows.{IsStepRow, steps_in};

    ghost Value = { List Step };

    ghost view = { λ s. steps_in s.row };

    ghost invariant = { λ s. IsStepRow s.row };
}

impl Steps {
    ghost use Rattle.cpu3850.specs.StepRows.{IsStepRow, steps_in};

    /// All of the steps, in order.
    pub fn as_slice(&self) -> &[Step]
        ensures value { result.now ≡ self.now }
        ensures few { length result.now ≤ 5 }
    {
        &self.row.items[..self.row.count as usize]
    }

    /// How many steps there are, at most 5.
    pub fn len(&self) -> usize
        ensures value { result ≡ length self.now }
        ensures few { result ≤ 5 }
    {
        self.row.count as usize
    }

    /// There is no step.
    pub fn is_empty(&self) -> bool
        ensures { result ≡ (length self.now == 0) }
    {
        self.row.count == 0
    }

    /// The step at a place, and `None` past the last.
    pub fn get(&self, place: usize) -> Option<Step>
        ensures { result ≡ slice_get self.now place }
    {
        self.as_slice().get(place).copied()
    }

    /// The clocks of all steps, in Φ.
    pub fn clocks(&self) -> u8
        ensures { result ≡ sum_by (λ step. step_clocks step.long) self.now }
    {
        clocks_of_steps(self.as_slice())
    }

    /// The steps but the last.
    pub fn before_last(&self) -> &[Step]
        ensures value { result.now ≡ take (length self.now - 1) self.now }
        ensures few { length result.now ≤ 4 }
    {
        &self.as_slice()[..self.len().saturating_sub(1)]
    }

    /// The last step, and `None` where there is none.
    pub fn last(&self) -> Option<Step>
        ensures { result ≡ slice_get self.now (length self.now - 1) }
    {
        self.get(self.len().saturating_sub(1))
    }

    /// The clocks of all steps but the last, in Φ.
    pub fn clocks_before_fetch(&self) -> u8
        ensures value { result ≡
            sum_by (λ step. step_clocks step.long) (take (length self.now - 1) self.now) }
        ensures most { result ≤ 24 }
    {
        clocks_of_steps(self.before_last())
    }

    /// What the list is kept as.
    pub(crate) fn row(&self) -> StepRow
        ensures kept { IsStepRow result }
        ensures steps { steps_in result ≡ self.now }
    {
        self.row
    }

    /// The list that is kept as this.
    #[inline]
    pub(crate) fn of(row: StepRow) -> Steps
        requires { IsStepRow row }
        ensures { result ≡ steps_in row }
    {
        Steps { row }
    }

    fn none() -> Steps
        ensures { result ≡ [] }
    {
        Steps {
            row: StepRow {
                items: [Step {
                    romc: Romc::FETCH,
                    long: false,
                    driver: Driver::Memory,
                }; MOST_STEPS],
                count: 0,
            },
        }
    }

    fn then(self, step: Step) -> Steps
        requires { length self < 5 }
        ensures { result ≡ self ++ step ∷ [] }
    {
        let mut steps = self;
        steps.row.items[steps.row.count as usize] = step;
        steps.row.count += 1;
        steps
    }

    fn long(self, romc: Romc) -> Steps
        requires { length self < 5 }
        ensures { result ≡ self ++ (record {
          romc = romc;
          long = true;
          driver = driver_by_table romc;
        }) ∷ [] }
    {
        self.then(Step {
            romc,
            long: true,
            driver: driver_of(romc),
        })
    }

    fn short(self, romc: Romc) -> Steps
        requires { length self < 5 }
        ensures { result ≡ self ++ (record {
          romc = romc;
          long = false;
          driver = driver_by_table romc;
        }) ∷ [] }
    {
        self.then(Step {
            romc,
            long: false,
            driver: driver_of(romc),
        })
    }

    /// The CPU works by itself, and nobody drives.
    fn idle(self) -> Steps
        requires { length self < 5 }
        ensures { result ≡ self ++ (record { romc = 0x1C; long = false; driver = Driver.Nobody }) ∷
            [] }
    {
        self.then(Step {
            romc: Romc::IDLE,
            long: false,
            driver: Driver::Nobody,
        })
    }
}

fn clocks_of_steps(steps: &[Step]) -> u8
    requires { length steps.now ≤ 5 }
    ensures value { result ≡ sum_by (λ step. step_clocks step.long) steps.now }
    ensures most { result ≤ length steps.now * 6 }
{
    steps.iter().map(|step| step_phi(step.long)).sum()
}

/// The bus steps of an instruction, the last of which fetches the next opcode. `taken` says that a branch is taken, and counts at
/// `BT`, `BF` and `BR7` alone. The lists are this project's own, after the Fairchild F8 User's Guide.
pub fn list(op: Op, taken: bool) -> Steps
    ensures steps { result ≡ listed op taken }
    ensures clocks { sum_by (λ step. step_clocks step.long) result ≡ clocks_of op taken }
{
    let row = row_of(op);
    before_fetch(row, taken).then(Step {
        romc: Romc::FETCH,
        long: has_long_fetch(row),
        driver: Driver::Memory,
    })
}

fn before_fetch(row: Row, taken: bool) -> Steps
    ensures { result ≡ map bus_step (steps_before_fetch row taken) }
{
    let none = Steps::none();
    match row {
        Row::Plain | Row::PlainLong => none,
        Row::Idle => none.idle(),
        Row::StackToK => none.long(Romc::TELL_STACK_HIGH).long(Romc::TELL_STACK_LOW),
        Row::StackFromK => none.long(Romc::SET_STACK_HIGH).long(Romc::SET_STACK_LOW),
        Row::CallK => none.long(Romc::CALL_LOW).long(Romc::SET_PROGRAM_HIGH),
        Row::JumpQ => none
            .long(Romc::SET_PROGRAM_LOW)
            .long(Romc::SET_PROGRAM_HIGH),
        Row::DataToPair => none.long(Romc::TELL_DATA_HIGH).long(Romc::TELL_DATA_LOW),
        Row::DataFromQ | Row::DataFromH => none.long(Romc::SET_DATA_HIGH).long(Romc::SET_DATA_LOW),
        Row::ReadData => none.long(Romc::READ_DATA),
        Row::StoreData => none.long(Romc::STORE_DATA),
        Row::Return => none.short(Romc::RETURN),
        Row::Immediate => none.long(Romc::OPERAND),
        Row::PortIn => none.long(Romc::OPERAND).long(Romc::READ_PORT),
        Row::PortOut => none.long(Romc::OPERAND).long(Romc::WRITE_PORT),
        Row::Call => none
            .long(Romc::OPERAND)
            .short(Romc::SAVE_NEXT)
            .long(Romc::JUMP_LOW)
            .long(Romc::SET_PROGRAM_HIGH),
        Row::Jump => none
            .long(Romc::OPERAND)
            .long(Romc::JUMP_LOW)
            .long(Romc::SET_PROGRAM_HIGH),
        Row::LoadData => none
            .long(Romc::LOAD_DATA_HIGH)
            .short(Romc::OPERAND)
            .long(Romc::LOAD_DATA_LOW)
            .short(Romc::OPERAND),
        Row::Exchange => none.short(Romc::EXCHANGE),
        Row::AddData => none.long(Romc::ADD_DATA),
        Row::Branch => displacement(none.idle(), taken),
        Row::BranchIsar => displacement(none, taken),
        Row::ShortIn => none.long(Romc::IDLE).long(Romc::READ_PORT),
        Row::ShortOut => none.long(Romc::IDLE).long(Romc::WRITE_PORT),
    }
}

/// The step at the displacement byte of a branch, after others.
fn displacement(steps: Steps, taken: bool) -> Steps
    requires { length steps < 5 }
    ensures { result ≡ steps ++ (record {
      romc = if taken then 0x01 else 0x03;
      long = taken;
      driver = Driver.Memory;
    }) ∷ [] }
{
    if taken {
        steps.long(Romc::DISPLACEMENT)
    } else {
        steps.short(Romc::OPERAND)
    }
}
