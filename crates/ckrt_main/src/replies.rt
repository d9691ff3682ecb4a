//! The texts of replies.
ghost use Rattle.std.specs.Prelude.{◌≡◌, ◌≤◌, ◌+◌, ◌*◌, ◌++◌, [], length, decimal, codes};
ghost use Rattle.arrayvec.specs.ArrayVec.{array_vec_len};
ghost use Rattle.hex.specs.Hex.{encode_lower};
ghost use Rattle.ckrt_main.specs.Replies.{ok_line, ack_line, out_line, submit_fault_text, commit_fault_text, answer_text, run_end_text};
ghost use Rattle.ckrt_events.specs.Refusals.{no_line, line_fault_text};

use arrayvec::ArrayVec;
use ckrt_events::LineFault;
use ckrt_machine::{Answer, RunEnd};
use ckrt_recovery::{CommitFault, SubmitFault};

/// The longest line is one of output: `out `, an offset of at most 20 digits, a space, 128 digits and a line feed.
pub const REPLY_BYTES: usize = 192;

/// How many bytes of output a line has at most.
pub const OUTPUT_BYTES: usize = 64;

/// A line of a reply, with its line feed.
pub type Reply = ArrayVec<u8, REPLY_BYTES>;

fn push(reply: &mut Reply, bytes: &[u8])
    requires { array_vec_len reply.old + length bytes.now ≤ 192 }
    ensures { reply.new.items ≡ reply.old.items ++ bytes.now }
{
    match reply.try_extend_from_slice(bytes) {
        Ok(()) => {}
        Err(_) => unreachable!(),
    }
}

fn push_number(reply: &mut Reply, number: u64)
    requires { array_vec_len reply.old + 20 ≤ 192 }
    ensures text { reply.new.items ≡ reply.old.items ++ decimal number }
    ensures short { length (decimal number) ≤ 20 }
{
    let mut buffer = itoa::Buffer::new();
    push(reply, buffer.format(number).as_bytes());
}

fn push_hex(reply: &mut Reply, bytes: &[u8])
    requires few { length bytes.now ≤ 64 }
    requires room { array_vec_len reply.old + 2 * length bytes.now ≤ 192 }
    ensures text { reply.new.items ≡ reply.old.items ++ encode_lower bytes.now }
    ensures len { length (encode_lower bytes.now) ≡ 2 * length bytes.now }
{
    let mut buffer = [0u8; 2 * OUTPUT_BYTES];
    let count = 2 * bytes.len();
    match hex::encode_to_slice(bytes, &mut buffer[..count]) {
        Ok(()) => push(reply, &buffer[..count]),
        Err(_) => unreachable!(),
    }
}

fn run_end_text(how: RunEnd) -> &'static [u8]
    ensures text { result.now ≡ run_end_text how }
    ensures short { length result.now ≤ 3 }
{
    match how {
        RunEnd::On => b"on".as_slice(),
        RunEnd::Off => b"off".as_slice(),
        RunEnd::End => b"end".as_slice(),
    }
}

fn push_answer(reply: &mut Reply, answer: Answer)
    requires { array_vec_len reply.old + 32 ≤ 192 }
    ensures text { reply.new.items ≡ reply.old.items ++ answer_text answer }
    ensures short { length (answer_text answer) ≤ 32 }
{
    match answer {
        Answer::Placed => push(reply, b"placed"),
        Answer::Ran(steps, how) => {
            push(reply, b"ran ");
            push_number(reply, u64::from(steps));
            push(reply, b" ");
            push(reply, run_end_text(how));
        }
        Answer::Taken(count) => {
            push(reply, b"taken ");
            push_number(reply, u64::from(count));
        }
        Answer::Closed => push(reply, b"closed"),
        Answer::Ticked(count) => {
            push(reply, b"ticked ");
            push_number(reply, u64::from(count));
        }
    }
}

/// The reply to an event that was accepted, with its number.
pub fn ok(count: u64, answer: Answer) -> Reply
    ensures { result.items ≡ ok_line count answer }
{
    let mut reply = Reply::new();
    push(&mut reply, b"ok ");
    push_number(&mut reply, count);
    push(&mut reply, b" ");
    push_answer(&mut reply, answer);
    push(&mut reply, b"\n");
    reply
}

/// The reply to a commit or a checkpoint, with the number of events so far.
pub fn ack(count: u64) -> Reply
    ensures { result.items ≡ ack_line count }
{
    let mut reply = Reply::new();
    push(&mut reply, b"ack ");
    push_number(&mut reply, count);
    push(&mut reply, b"\n");
    reply
}

/// A line of output, with the offset of its first byte.
pub fn out(offset: u64, bytes: &[u8]) -> Reply
    requires { length bytes.now ≤ 64 }
    ensures { result.items ≡ out_line offset bytes.now }
{
    let mut reply = Reply::new();
    push(&mut reply, b"out ");
    push_number(&mut reply, offset);
    push(&mut reply, b" ");
    push_hex(&mut reply, bytes);
    push(&mut reply, b"\n");
    reply
}

/// The reply to an event that the session refused.
pub fn refused_event(fault: SubmitFault) -> Reply
    ensures { result.items ≡ no_line (submit_fault_text fault) }
{
    let text = match fault {
        SubmitFault::Failed => b"21 Failed".as_slice(),
        SubmitFault::NeedsCheckpoint => b"27 NeedsCheckpoint".as_slice(),
        SubmitFault::Refused(refusal) => refusal.text(),
        SubmitFault::BatchFull => b"22 BatchFull".as_slice(),
        SubmitFault::JournalFull => b"23 JournalFull".as_slice(),
        SubmitFault::CountersUsed => b"24 CountersUsed".as_slice(),
    };
    no(text)
}

/// The reply to a commit or a checkpoint that the session refused, or whose disk failed.
pub fn refused_commit(fault: CommitFault) -> Reply
    ensures { result.items ≡ no_line (commit_fault_text fault) }
{
    let text = match fault {
        CommitFault::Failed => b"21 Failed".as_slice(),
        CommitFault::Device => b"25 Device".as_slice(),
        CommitFault::GenerationsUsed => b"26 GenerationsUsed".as_slice(),
    };
    no(text)
}

/// The reply to a line that is no command.
pub fn refused_line(fault: LineFault) -> Reply
    ensures { result.items ≡ no_line (line_fault_text fault) }
{
    no(fault.text())
}

fn no(text: &[u8]) -> Reply
    requires { length text.now ≤ 20 }
    ensures { result.items ≡ no_line text.now }
{
    let mut reply = Reply::new();
    push(&mut reply, b"no ");
    push(&mut reply, text);
    push(&mut reply, b"\n");
    reply
}
