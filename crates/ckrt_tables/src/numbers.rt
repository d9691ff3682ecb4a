//! The numbers that stand for the variants of enums, and for marks.
ghost use Rattle.std.specs.Prelude.{◌≡◌, ◌≤◌};
ghost use Rattle.ckrt_thread.specs.declared.records.Thread.TheVariants as thread;
ghost use Rattle.ckrt_tables.specs.Records.{flag, flags_of, kind_of, result_of, first_name, second_name, retake_number, cause_number, mutex_kind_number, id_or_0};

use ckrt_mutex::Kind;
use ckrt_rv32i::Cause;
use ckrt_thread::{Live, Reason, RetakeResult, ThreadId};

/// The mark for a flag: this number where it is set, else 0.
pub fn flag(number: u8, is_set: bool) -> u8
    ensures mark { result ≡ flag number is_set }
    ensures most { result ≤ number }
{
    if is_set { number } else { 0 }
}

/// The id of a thread, 0 for none.
pub fn id_or_0(id: Option<ThreadId>) -> u8
    ensures { result ≡ id_or_0 id }
{
    id.unwrap_or(0)
}

/// The number of a cause, 1 to 9.
pub fn cause_number(cause: Cause) -> u8
    ensures { result ≡ cause_number cause }
{
    match cause {
        Cause::FetchRange => 1,
        Cause::Illegal => 2,
        Cause::JumpMisaligned => 3,
        Cause::LoadMisaligned => 4,
        Cause::LoadRange => 5,
        Cause::StoreMisaligned => 6,
        Cause::StoreRange => 7,
        Cause::Breakpoint => 8,
        Cause::Gate => 9,
    }
}

/// The number of a kind of mutexes, 0 to 2.
pub fn mutex_kind_number(kind: Kind) -> u8
    ensures { result ≡ mutex_kind_number kind }
{
    match kind {
        Kind::Normal => 0,
        Kind::Recursive => 1,
        Kind::ErrorCheck => 2,
    }
}

/// The number of a reason to wait, 1 to 9.
pub fn kind_of(reason: Reason) -> u8
    ensures { result ≡ kind_of reason }
{
    match reason {
        Reason::Join(_) => 1,
        Reason::Lock(_) => 2,
        Reason::Retake(_, _) => 3,
        Reason::Condition(_, _) => 4,
        Reason::Barrier(_) => 5,
        Reason::Read(_) => 6,
        Reason::Write(_) => 7,
        Reason::Input => 8,
        Reason::Sleep => 9,
    }
}

fn retake_number(outcome: RetakeResult) -> u8
    ensures { result ≡ retake_number outcome }
{
    match outcome {
        RetakeResult::Done => 0,
        RetakeResult::TimedOut => 110,
        RetakeResult::Unwind => 255,
    }
}

/// The number of what a retake ends with; 0 for any other reason.
pub fn result_of(reason: Reason) -> u8
    ensures { result ≡ result_of reason }
{
    match reason {
        Reason::Retake(_, outcome) => retake_number(outcome),
        _ => 0,
    }
}

/// What a reason names first, as a thread or an object; 0 where it names nothing.
pub fn first_name(reason: Reason) -> u32
    ensures { result ≡ first_name reason }
{
    match reason {
        Reason::Join(id) => u32::from(id),
        Reason::Lock(address) => address,
        Reason::Retake(address, _) => address,
        Reason::Condition(address, _) => address,
        Reason::Barrier(address) => address,
        Reason::Read(address) => address,
        Reason::Write(address) => address,
        Reason::Input => 0,
        Reason::Sleep => 0,
    }
}

/// The mutex of a condition wait; 0 for any other reason.
pub fn second_name(reason: Reason) -> u32
    ensures { result ≡ second_name reason }
{
    match reason {
        Reason::Condition(_, mutex) => mutex,
        _ => 0,
    }
}

/// The flags of a thread that has not ended, below 64.
pub fn flags_of(live: &Live) -> u8
    ensures { result ≡ flags_of (thread.Live live.now) }
{
    let cancellation = live.cancellation;
    flag(1, live.initial)
        + flag(2, live.detached)
        + flag(4, !cancellation.is_enabled)
        + flag(8, cancellation.is_asynchronous)
        + flag(16, cancellation.is_requested)
        + flag(32, cancellation.unwinding.is_some())
}
