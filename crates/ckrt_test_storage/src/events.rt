//! Events as bytes and as lines of text.

use crate::expect::{expect_bytes, expect_eq, expect_text};
use arrayvec::ArrayVec;
use ckrt_events::{
    BATCH_LIMIT, Command, Event, Events, LineFault, decode_events, encode_event, encoded_len,
    encodings_are_prefix_free, parse_command,
};
use std::process::Abort;

fn input<R: Abort>(rt: &R, bytes: &[u8]) -> Event {
    let mut input = ArrayVec::new();
    assert!(rt; input.try_extend_from_slice(bytes).is_ok());
    Event::Input(input)
}

/// The bytes of one event after those of others.
fn push_event<R: Abort>(rt: &R, bytes: &mut ArrayVec<u8, BATCH_LIMIT>, event: &Event) {
    assert!(rt; event.in_range());
    assert!(rt; encode_event(event, bytes));
}

/// The event has that many bytes.
fn expect_length<R: Abort>(rt: &R, event: &Event, length: usize) {
    expect_eq(rt, encoded_len(event), length);
}

/// The bytes encode Place(0, 1) and Run(0, 2), in each version.
fn expect_two_events<R: Abort>(rt: &R, version: u32, bytes: &[u8]) {
    let mut events = decode_events(version, bytes).expect(rt, "events");
    expect_next(rt, &mut events, Some(Event::Place(0, 1)));
    expect_next(rt, &mut events, Some(Event::Run(0, 2)));
    expect_next(rt, &mut events, None);
}

fn expect_next<R: Abort>(rt: &R, events: &mut Events, want: Option<Event>) {
    expect_eq(rt, events.next(), want);
}

#[test]
fn events_have_the_bytes_of_the_format(rt: HostRuntime) {
    let mut bytes = ArrayVec::new();
    push_event(&rt, &mut bytes, &Event::Place(0, 1));
    push_event(&rt, &mut bytes, &Event::Run(0, 2));
    expect_bytes(&rt, bytes.as_slice(), &[1, 0, 1, 2, 0, 2, 0]);
    expect_two_events(&rt, 1, bytes.as_slice());
    expect_two_events(&rt, 2, bytes.as_slice());
    expect_length(&rt, &Event::Place(0, 1), 3);
    expect_length(&rt, &Event::Run(0, 2), 4);
    encodings_are_prefix_free();
}

/// In this version the bytes encode a single event, or none.
fn expect_only<R: Abort>(rt: &R, version: u32, bytes: &[u8], want: Option<Event>) {
    let event = match decode_events(version, bytes) {
        Some(mut events) => events.next(),
        None => None,
    };
    expect_eq(rt, event, want);
}

#[test]
fn long_runs_come_with_version_2(rt: HostRuntime) {
    let event = Event::RunLong(0, 1_000_000);
    let mut bytes = ArrayVec::new();
    push_event(&rt, &mut bytes, &event);
    expect_bytes(&rt, bytes.as_slice(), &[6, 0, 0x40, 0x42, 0x0f, 0]);
    expect_length(&rt, &event, 6);
    expect_eq(
        &rt,
        (event.is_known_in(1), event.is_known_in(2)),
        (false, true),
    );
    expect_only(&rt, 2, bytes.as_slice(), Some(event));
    expect_only(&rt, 1, bytes.as_slice(), None);
    expect_only(&rt, 2, &[6, 0, 0x41, 0x42, 0x0f, 0], None);
    expect_only(&rt, 2, &[6, 8, 1, 0, 0, 0], None);
    expect_only(&rt, 2, &[6, 0, 0, 0, 0, 0], None);
}

/// The line says the command, which is in range.
fn expect_command<R: Abort>(rt: &R, line: &[u8], command: Command) {
    assert!(rt; command.in_range());
    expect_eq(rt, parse_command(line), Ok(command));
}

/// The line says these bytes of input.
fn expect_input<R: Abort>(rt: &R, line: &[u8], bytes: &[u8]) {
    expect_command(rt, line, Command::Submit(input(rt, bytes)));
}

const COMMANDS: [(&[u8], Command); 12] = [
    (b"", Command::Blank),
    (b" \t", Command::Blank),
    (b"place 0 1", Command::Submit(Event::Place(0, 1))),
    (
        b"\tplace  007 000000000000000000000064 ",
        Command::Submit(Event::Place(7, 64)),
    ),
    (b"run 7 65535", Command::Submit(Event::Run(7, 65_535))),
    (
        b"runlong 7 1000000",
        Command::Submit(Event::RunLong(7, 1_000_000)),
    ),
    (b"eof", Command::Submit(Event::Eof)),
    (
        b"tick 4294967295",
        Command::Submit(Event::Tick(4_294_967_295)),
    ),
    (b"auto 0 2", Command::Auto(0, 2)),
    (b"commit", Command::Commit),
    (b"checkpoint", Command::Checkpoint),
    (b"quit", Command::Quit),
];

#[test]
fn lines_have_their_commands(rt: HostRuntime) {
    for (line, command) in COMMANDS {
        expect_command(&rt, line, command);
    }
    expect_input(&rt, b"in 5A5b", &[0x5a, 0x5b]);
}

/// The line is refused with this fault.
fn expect_fault<R: Abort>(rt: &R, line: &[u8], fault: LineFault) {
    expect_eq(rt, parse_command(line), Err(fault));
}

const FAULTS: &[(&[u8], LineFault)] = &[
    (b"jump", LineFault::Unknown),
    (b"checkpoint 1", LineFault::Unknown),
    (b"place 0", LineFault::Unknown),
    (b"eof 1", LineFault::Unknown),
    (b"run x x x", LineFault::Unknown),
    (b"run 0 x", LineFault::Number),
    (b"run 0 99999999999999999999999x", LineFault::Number),
    (b"run 8 x", LineFault::Range),
    (b"in 4", LineFault::Hex),
    (b"run 0 0", LineFault::Range),
    (b"runlong 0", LineFault::Unknown),
    (b"runlong 8 x", LineFault::Range),
    (b"runlong 0 0", LineFault::Range),
    (b"runlong 0 1000001", LineFault::Range),
    (b"tick 4294967296", LineFault::Range),
    (&[b'a'; 161], LineFault::TooLong),
    (&[b' '; 161], LineFault::TooLong),
];

#[test]
fn faults_of_lines_come_in_order(rt: HostRuntime) {
    for (line, fault) in FAULTS {
        expect_fault(&rt, *line, *fault);
    }
}

#[test]
fn input_has_64_bytes_at_most(rt: HostRuntime) {
    let mut line = [b'0'; 133];
    line[..3].copy_from_slice(b"in ");
    expect_input(&rt, &line[..131], &[0; 64]);
    expect_fault(&rt, &line, LineFault::Range);
    line[132] = b'g';
    expect_fault(&rt, &line, LineFault::Hex);
}

#[test]
fn faults_have_names(rt: HostRuntime) {
    expect_text(&rt, LineFault::Unknown, "Unknown");
    expect_text(&rt, LineFault::Number, "Number");
    expect_text(&rt, LineFault::Hex, "Hex");
    expect_text(&rt, LineFault::Range, "Range");
    expect_text(&rt, LineFault::TooLong, "TooLong");
}
