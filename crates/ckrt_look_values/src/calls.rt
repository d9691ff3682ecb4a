//! What a call does to what is known, and which uses it tells.
ghost use Rattle.std.specs.Prelude.{◌≡◌, ◌≤◌};
ghost use Rattle.ckrt_look_recording.specs.Accesses.{fetched};
ghost use Rattle.ckrt_look_values.specs.Instructions.{after_call, after_ecall, after_end, answered, argument, asked, count_of, forgotten, taken};

use crate::instruction::tell;
use crate::value::{Deed, Value, chosen, known};
use crate::values::Values;
use ckrt_calls::Call;
use ckrt_look_calls::{Arguments, Stepping, arguments_of};
use ckrt_look_recording::fetched;
use ckrt_machine::Machine;
use ckrt_rv32i::Instr;

/// How many registers a call takes.
fn count_of(arguments: Arguments) -> u8
    ensures { result ≡ count_of arguments }
{
    match arguments {
        Arguments::Nothing => 0,
        Arguments::Number | Arguments::Word => 1,
        Arguments::WordNumber | Arguments::NumberWord | Arguments::TwoWords | Arguments::Moment =>
            2,
        Arguments::WordMoment => 3,
        Arguments::TwoWordsMoment | Arguments::Creation => 4,
    }
}

/// What a call takes from one of so many registers.
fn taken(count: u8, at: u8, step: &Stepping, values: &Values) -> Value
    requires { at ≤ 3 }
    ensures { result ≡ taken count at step.now values.now }
{
    if at < count {
        return values.register(step.thread, 10 + at);
    }
    known()
}

/// The first of the words that a call takes which has unknown bits.
fn argument(count: u8, step: &Stepping, values: &Values) -> Value
    ensures { result ≡ argument count step.now values.now }
{
    let front = chosen(taken(count, 0, step, values), taken(count, 1, step, values));
    let back = chosen(taken(count, 2, step, values), taken(count, 3, step, values));
    chosen(front, back)
}

/// What a call takes is told, if something of it is unknown.
fn ask(machine: &Machine, step: &Stepping, call: Option<Call>, values: &mut Values)
    ensures { values.new ≡ asked machine.now.state step.now call values.old }
{
    if let Some(call) = call {
        let value = argument(count_of(arguments_of(call)), step, values);
        tell(machine, step, Deed::Call, value, values);
    }
}

/// The same, if the instruction is a call.
fn watch_ecall(machine: &Machine, step: &Stepping, instr: Option<Instr>, values: &mut Values)
    ensures { values.new ≡ after_ecall machine.now.state step.now instr values.old }
{
    match instr {
        Some(Instr::Ecall) => {
            ask(machine, step, Call::from_number(step.regs.get(17)), values);
        }
        _ => {}
    }
}

/// What the runtime may have put into registers is known.
fn answer(thread: u8, values: &mut Values)
    ensures { values.new ≡ answered thread values.old }
{
    values.put(thread, 1, known());
    values.put(thread, 10, known());
    values.put(thread, 11, known());
}

/// A step that is a call, or goes through a gate.
pub(crate) fn watch_call(machine: &Machine, step: &Stepping, values: &mut Values)
    ensures { values.new ≡ after_call machine.now.state step.now values.old }
{
    let instr = fetched(machine.memory().as_slice(), step.regs.pc());
    watch_ecall(machine, step, instr, values);
    answer(step.thread, values);
}

/// All is known of a thread's registers.
fn forget(thread: u8, values: &mut Values)
    ensures { values.new ≡ forgotten 32 thread values.old }
{
    for register in 0..32 {
        values.put(thread, register, known());
    }
}

/// The same, if the thread has ended.
pub(crate) fn watch_end(machine: &Machine, thread: u8, values: &mut Values)
    ensures { values.new ≡ after_end thread machine.now.state values.old }
{
    match machine.tables().threads.regs(thread) {
        Some(_) => {}
        None => forget(thread, values),
    }
}
