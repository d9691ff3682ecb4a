//! What stands behind the lines of threads: their names, and the calls by which they came into a kit, by rows and frames made by hand.

use crate::expect::{expect_bytes, expect_eq};
use ckrt_cli_names::{Form, NamedWriter, Names};
use ckrt_look_recording::Frame;
use ckrt_memory::Memory;
use ckrt_registers::Regs;
use std::io::Write;
use std::process::Abort;

/// A program with a kit from 00001100 on. In its `lock` `enter` is called, which has no frame of its own; a third function calls itself for
/// ever.
const FILE: &[u8] =
    b"ckrt-names 2 000102030405060708090a0b0c0d0e0f101112131415161718191a1b1c1d1e1f 00000007
at 00001000 00000008 main at a.c:3
at 00001008 00000008 worker at a.c:9
at 00001010 00000008 bump at a.c:5, in worker at a.c:9
in 00001018 00000008 start
at 00001100 00000010 find at kit.c:7, in lock at kit.c:20
at 00001110 00000008 enter at call.c:1
at 00001118 00000008 again at call.c:8
kit 00001100 00000020
up 00001100 00000010 8 8 4 8
up 00001110 00000008 2 0 x1 x8
up 00001118 00000008 2 0 x1 x8
threads 00001200
";

/// Words of the memory by address: the table of threads, records with names, and the frames of `lock`. A frame at an address has the caller's
/// frame pointer there and the return address behind it.
const WORDS: [(u32, u32); 18] = [
    (0x1204, 0x1240),
    (0x1208, 0x1280),
    (0x120c, 0),
    (0x1210, 0x12c0),
    (0x1214, 0x00ff_ffff),
    // `left`
    (0x1258, 0x7466_656c),
    (0x125c, 0),
    // Bytes that aren't printed, and no zero: `a`, 7f, `~`, 80, and then eleven times `b`.
    (0x1298, 0x807e_7f61),
    (0x129c, 0x6262_6262),
    (0x12a0, 0x6262_6262),
    (0x12a4, 0x6262_6262),
    // Frames of `lock`: called by `worker`, by what was drawn into it, by `start`, by what has no row, and by itself.
    (0x1304, 0x1010),
    (0x1314, 0x1018),
    (0x1324, 0x1020),
    (0x1334, 0x1030),
    (0x1344, 0x100e),
    (0x1350, 0x1300),
    (0x1354, 0x110c),
];

/// A thread: its number, whether it waits, its pc, x1, x2 and x8; and what stands behind its line.
type Case = (u8, bool, [u32; 4], &'static [u8]);

const CASES: [Case; 15] = [
    // It waits in `enter`, which `lock` called.
    (
        1,
        true,
        [0x1114, 0x110c, 0x12f0, 0x1300],
        b"    # left, in lock, called at a.c:9, in worker",
    ),
    // It is ready there.
    (
        1,
        false,
        [0x1110, 0x110c, 0x12f0, 0x1300],
        b"    # left, in lock, called at a.c:9, in worker",
    ),
    // It stands in `lock` itself.
    (
        3,
        false,
        [0x1108, 0, 0x12f0, 0x1300],
        b"    # in lock, called at a.c:9, in worker",
    ),
    // The call was drawn into its function.
    (
        3,
        true,
        [0x1114, 0x110c, 0x12f0, 0x1310],
        b"    # in lock, called at a.c:5, in bump, in worker at a.c:9",
    ),
    // The caller is known without its line.
    (
        3,
        true,
        [0x1114, 0x110c, 0x12f0, 0x1320],
        b"    # in lock, called in start + 4",
    ),
    // Through two frames of `lock`.
    (
        1,
        true,
        [0x1114, 0x110c, 0x12f0, 0x1350],
        b"    # left, in lock, called at a.c:9, in worker",
    ),
    // The caller has no row, is at no instruction, or the frame isn't in the memory, or misaligned.
    (
        3,
        true,
        [0x1114, 0x110c, 0x12f0, 0x1330],
        b"    # enter at call.c:1",
    ),
    (
        3,
        true,
        [0x1114, 0x110c, 0x12f0, 0x1340],
        b"    # enter at call.c:1",
    ),
    (
        3,
        true,
        [0x1114, 0x110c, 0x12f0, 0],
        b"    # enter at call.c:1",
    ),
    (
        3,
        true,
        [0x1114, 0x110c, 0x12f0, 0x1302],
        b"    # enter at call.c:1",
    ),
    // More than 64 frames.
    (
        1,
        false,
        [0x1118, 0x1120, 0x12f0, 0x1300],
        b"    # left, again at call.c:8",
    ),
    // In code of the user, and where nothing is named.
    (1, false, [0x1004, 0, 0, 0], b"    # left, main at a.c:3"),
    (1, false, [0x1080, 0, 0, 0], b"    # left"),
    // A name with bytes that aren't printed, and a record that isn't in the memory.
    (
        2,
        false,
        [0x1004, 0, 0, 0],
        b"    # a?~?bbbbbbbbbbb, main at a.c:3",
    ),
    (5, false, [0x1004, 0, 0, 0], b"    # main at a.c:3"),
];

/// Rows that aren't in their order, or no rows.
const WRONG: [&[u8]; 10] = [
    b"kit 00001100 00000020\nkit 00001110 00000020\n",
    b"kit 00001100 00000020 \n",
    b"up 00001100 00000010 8 8 4 8\nkit 00001100 00000020\n",
    b"kit 00001100 00000020\nat 00001200 00000010 a at b.c:1\n",
    b"up 00001100 00000010 3 8 4 8\n",
    b"up 00001100 00000010 8 8 x2 8\n",
    b"up 00001100 00000010 8 4294967296 4 8\n",
    b"up 00001100 00000010 8 8 4\n",
    b"threads 00001200\nthreads 00001204\n",
    b"threads 00001200",
];

/// The names of a file.
fn names_in<R: Abort + AllocGlobal>(rt: &R, file: &[u8]) -> Option<Names> {
    let mut bytes = Vec::new(rt.alloc());
    expect_eq(rt, bytes.extend_from_slice(file).is_ok(), true);
    Names::parse(rt.alloc(), bytes).ok()
}

/// A word of an image that begins at 00001000.
fn put_word(image: &mut [u8; 4096], address: u32, word: u32) {
    for (place, byte) in word.to_le_bytes().iter().enumerate() {
        let at = (address as usize)
            .saturating_sub(4_096)
            .saturating_add(place);
        if let Some(there) = image.get_mut(at) {
            *there = *byte;
        }
    }
}

/// The memory.
fn memory<R: Abort + AllocGlobal>(rt: &R) -> Memory {
    let mut image = [0u8; 4096];
    for (address, word) in &WORDS {
        put_word(&mut image, *address, *word);
    }
    match Memory::new(rt.alloc(), 16, &image) {
        Ok(memory) => memory,
        Err(_) => panic!(rt; "there is memory"),
    }
}

/// The frame of a thread.
fn frame(waits: bool, registers: [u32; 4]) -> Frame {
    let mut regs = Regs::new(registers[0]);
    regs.put(1, registers[1]);
    regs.put(2, registers[2]);
    regs.put(8, registers[3]);
    Frame::of(&regs, waits)
}

/// What is written of a line, in this form, where something is told of a thread.
fn play<R: Abort + AllocGlobal>(
    rt: &R,
    memory: &Memory,
    case: &Case,
    form: Form,
    line: &[u8],
) -> Vec<u8> {
    let Some(mut names) = names_in(rt, FILE) else {
        panic!(rt; "these are names");
    };
    let frame = frame(case.1, case.2);
    let told = names.tell_thread(rt.alloc(), memory, case.0, &frame);
    expect_eq(rt, told.is_ok(), true);
    let mut writer = NamedWriter::in_form(rt.alloc(), names, form, Vec::new(rt.alloc()));
    expect_eq(rt, writer.write_all(line).is_ok(), true);
    expect_eq(rt, writer.flush().is_ok(), true);
    writer.into_inner()
}

/// The line of a thread of a listing, up to its pc.
fn line_of<R: Abort + AllocGlobal>(rt: &R, thread: u8, behind: &[u8]) -> Vec<u8> {
    let mut line = Vec::new(rt.alloc());
    let begun = line.extend_from_slice(b"thread ");
    let told = line.extend_from_slice(&[b'0'.saturating_add(thread)]);
    let pc = line.extend_from_slice(b" joinable ready pc 00001004");
    let ended = line.extend_from_slice(behind);
    expect_eq(
        rt,
        begun.is_ok() && told.is_ok() && pc.is_ok() && ended.is_ok(),
        true,
    );
    let end = line.extend_from_slice(b"\n");
    expect_eq(rt, end.is_ok(), true);
    line
}

/// A case.
fn expect_told<R: Abort + AllocGlobal>(rt: &R, memory: &Memory, case: &Case) {
    let line = line_of(rt, case.0, b"");
    let taken = play(rt, memory, case, Form::Notes, &line);
    let want = line_of(rt, case.0, case.3);
    expect_bytes(rt, &taken, &want);
}

#[test]
fn threads_are_told_by_name_and_call(rt: HostRuntime) {
    let memory = memory(&rt);
    for case in &CASES {
        expect_told(&rt, &memory, case);
    }
}

/// Another thread's line, and other lines, stay as they are.
#[test]
fn other_lines_are_told_as_ever(rt: HostRuntime) {
    let memory = memory(&rt);
    let line = b"thread 4 ready pc 00001008\nthreads 00001000\nthread 00001000\n";
    let taken = play(&rt, &memory, &CASES[0], Form::Notes, line);
    expect_bytes(
        &rt,
        &taken,
        b"thread 4 ready pc 00001008    # worker at a.c:9\nthreads 00001000    # main at a.c:3\n\
thread 00001000    # main at a.c:3\n",
    );
}

/// Lines of a picture, of which one labels thread 1, and what comes of them.
const PICTURE: (&[u8], &[u8]) = (
    b"<text x=\"4\" y=\"33\">thread 1</text>\n<text x=\"4\" y=\"53\">thread 2</text>\n<text>thread 1</text>\n",
    b"<text x=\"4\" y=\"33\">thread 1<tspan x=\"4\" dy=\"9\" font-size=\"8\">left</tspan></text>\n\
<text x=\"4\" y=\"53\">thread 2</text>\n<text>thread 1</text>\n",
);

/// The same of trace events.
const EVENTS: (&[u8], &[u8]) = (
    b"{\"name\":\"thread_name\",\"ph\":\"M\",\"pid\":1,\"tid\":1,\"args\":{\"name\":\"thread 1\"}},\n",
    b"{\"name\":\"thread_name\",\"ph\":\"M\",\"pid\":1,\"tid\":1,\"args\":{\"name\":\"thread 1 left\"}},\n",
);

#[test]
fn timelines_have_names_of_threads(rt: HostRuntime) {
    let memory = memory(&rt);
    let picture = play(&rt, &memory, &CASES[0], Form::Picture, PICTURE.0);
    expect_bytes(&rt, &picture, PICTURE.1);
    let events = play(&rt, &memory, &CASES[0], Form::Events, EVENTS.0);
    expect_bytes(&rt, &events, EVENTS.1);
}

/// Lines by which a program ends, of which a thread waits in the kit and another one stands in its own code; and what comes of them.
const ENDS: [(&[u8], &[u8]); 9] = [
    (
        b"deadlock",
        b"    # thread 1 left, in lock, called at a.c:9, in worker; thread 2 a?~?bbbbbbbbbbb, main at a.c:3",
    ),
    (
        b"ended: fault 1 00001110 LoadRange 00000008",
        b"    # left, in lock, called at a.c:9, in worker",
    ),
    (
        b"status fault 2 00001004 LoadRange",
        b"    # a?~?bbbbbbbbbbb, main at a.c:3",
    ),
    (
        b"7+12 fault 2 00001004 StoreRange 00001008",
        b"    # a?~?bbbbbbbbbbb, main at a.c:3; worker at a.c:9",
    ),
    (
        b"ended: fault 4 00001004 StoreRange 00001008",
        b"    # main at a.c:3; worker at a.c:9",
    ),
    (
        b"ended: exit 3",
        b"    # left, in lock, called at a.c:9, in worker",
    ),
    (b"ended: waits for input", b""),
    (b"deadlock 00001004", b"    # main at a.c:3"),
    (b"7+12 thread 1 exit(3) = ?", b""),
];

/// Tells the thread of a case.
fn tell_case<R: Abort + AllocGlobal>(rt: &R, names: &mut Names, memory: &Memory, case: &Case) {
    let told = names.tell_thread(rt.alloc(), memory, case.0, &frame(case.1, case.2));
    expect_eq(rt, told.is_ok(), true);
}

/// The names with both threads told. The one of this number ended the program.
fn ended<R: Abort + AllocGlobal>(rt: &R, memory: &Memory, first: &Case, ended_by: u8) -> Names {
    let Some(mut names) = names_in(rt, FILE) else {
        panic!(rt; "these are names");
    };
    tell_case(rt, &mut names, memory, first);
    tell_case(rt, &mut names, memory, &CASES[13]);
    names.tell_ended_by(ended_by);
    names
}

/// What comes of a line.
fn end_line<R: Abort + AllocGlobal>(rt: &R, names: Names, line: &[u8]) -> Vec<u8> {
    let mut writer = NamedWriter::new(rt.alloc(), names, Vec::new(rt.alloc()));
    expect_eq(rt, writer.write_all(line).is_ok(), true);
    expect_eq(rt, writer.write_all(b"\n").is_ok(), true);
    expect_eq(rt, writer.flush().is_ok(), true);
    writer.into_inner()
}

#[test]
fn ends_tell_threads(rt: HostRuntime) {
    let memory = memory(&rt);
    for (line, behind) in &ENDS {
        let taken = end_line(&rt, ended(&rt, &memory, &CASES[0], 1), line);
        let mut want = Vec::new(rt.alloc());
        let _ = want.extend_from_slice(line);
        let _ = want.extend_from_slice(behind);
        let _ = want.extend_from_slice(b"\n");
        expect_bytes(&rt, &taken, &want);
    }
}

/// Where no caller in the program's own code is known, the end of a program tells nothing.
#[test]
fn ends_in_the_kit_alone_tell_nothing(rt: HostRuntime) {
    let memory = memory(&rt);
    let taken = end_line(&rt, ended(&rt, &memory, &CASES[10], 1), b"ended: exit 3");
    expect_bytes(&rt, &taken, b"ended: exit 3\n");
    let taken = end_line(&rt, ended(&rt, &memory, &CASES[0], 9), b"ended: exit 3");
    expect_bytes(&rt, &taken, b"ended: exit 3\n");
}

/// Whether a file with these rows after its own is one of names.
fn are_names<R: Abort + AllocGlobal>(rt: &R, head: &[u8], rows: &[u8]) -> bool {
    let mut file = Vec::new(rt.alloc());
    expect_eq(rt, file.extend_from_slice(head).is_ok(), true);
    expect_eq(rt, file.extend_from_slice(rows).is_ok(), true);
    names_in(rt, &file).is_some()
}

/// The first line of version 2.
const HEAD: &[u8] =
    b"ckrt-names 2 000102030405060708090a0b0c0d0e0f101112131415161718191a1b1c1d1e1f 00000007\n";

/// That of version 1.
const OLD_HEAD: &[u8] =
    b"ckrt-names 1 000102030405060708090a0b0c0d0e0f101112131415161718191a1b1c1d1e1f 00000007\n";

#[test]
fn rules_stand_in_their_order(rt: HostRuntime) {
    for rows in &WRONG {
        expect_eq(&rt, are_names(&rt, HEAD, rows), false);
    }
    expect_eq(&rt, are_names(&rt, HEAD, b"threads 00001200\n"), true);
    expect_eq(&rt, are_names(&rt, OLD_HEAD, b"threads 00001200\n"), false);
    expect_eq(&rt, are_names(&rt, OLD_HEAD, b""), true);
}
