//! Searches, against a look at each position.

use crate::expect::expect_eq;
use crate::plans::{go_to, history_of};
use ckrt_gdb_history::{Breakpoint, History, Position, Stops, Watch, WatchKind};
use ckrt_test_storage::{BOUNDED, COUNTERS, PAIR};
use std::process::Abort;

/// What stops, and in which guest.
#[derive(Drop)]
struct Case {
    words: &'static [u32],
    steps: u32,
    kept: u32,
    breakpoint: Option<Breakpoint>,
    watch: Option<Watch>,
    event_ends: bool,
    thread: Option<u8>,
}

impl Case {
    /// The same, and each step of a thread.
    fn with_steps_of(self, thread: u8) -> Case {
        let mut case = self;
        case.thread = Some(thread);
        case
    }
}

/// The byte at an address, where there is one.
fn byte_at(history: &History, address: u32) -> Option<u8> {
    let memory = history.machine().memory();
    let page = address / 4096;
    if page == 0 || page >= memory.pages() {
        return None;
    }
    Some(memory.page(page)[(address % 4096) as usize])
}

/// The bytes under a watch of changes, as one number.
fn bytes_under(history: &History, watch: Option<Watch>) -> u64 {
    let Some(watch) = watch else {
        return 0;
    };
    if watch.kind != WatchKind::Changes {
        return 0;
    }
    let mut all = 0u64;
    for address in watch.first..watch.last.saturating_add(1) {
        if let Some(byte) = byte_at(history, address) {
            all = all.wrapping_mul(257).wrapping_add(u64::from(byte));
        }
    }
    all
}

/// The word at an address; 0 where there is none.
fn word_at(history: &History, address: u32) -> u32 {
    let mut word = 0u32;
    for place in 0..4u32 {
        let byte = byte_at(history, address.wrapping_add(3 - place)).unwrap_or(0);
        word = word.wrapping_mul(256).wrapping_add(u32::from(byte));
    }
    word
}

/// What a word loads or stores (unprivileged manual, section 2.6): whether it stores, its base, its offset, and how many bytes.
fn access_of(word: u32) -> Option<(bool, u8, u32, u32)> {
    let base = ((word >> 15) % 32) as u8;
    let bytes = match (word >> 12) % 4 {
        0 => 1,
        1 => 2,
        _ => 4,
    };
    let sign = if word >> 31 == 1 { 0xffff_f000 } else { 0 };
    match word % 128 {
        0x03 => Some((false, base, sign | (word >> 20), bytes)),
        0x23 => {
            let low = (word >> 7) % 32;
            Some((true, base, sign | (word >> 25) * 32 | low, bytes))
        }
        _ => None,
    }
}

/// Whether a watch stops for what the next step loads or stores.
fn is_seen(history: &History, watch: Option<Watch>) -> bool {
    let (Some(watch), Some((thread, pc))) = (watch, history.runner()) else {
        return false;
    };
    let Some((stores, base, offset, bytes)) = access_of(word_at(history, pc)) else {
        return false;
    };
    let Some(regs) = history.machine().tables().threads.regs(thread) else {
        return false;
    };
    let first = regs.get(base % 32).wrapping_add(offset);
    let is_of_kind = match watch.kind {
        WatchKind::Changes => false,
        WatchKind::Loads => !stores,
        WatchKind::Accesses => true,
    };
    is_of_kind && first <= watch.last && watch.first < first.saturating_add(bytes)
}

/// Whether a thread is to step at the breakpoint.
fn is_hit(history: &History, breakpoint: Option<Breakpoint>) -> bool {
    let (Some(breakpoint), Some((thread, pc))) = (breakpoint, history.runner()) else {
        return false;
    };
    pc == breakpoint.address && breakpoint.thread.is_none_or(|of| of == thread)
}

/// Whether the next step is the thread's.
fn is_step_of(history: &History, thread: Option<u8>) -> bool {
    match (thread, history.runner()) {
        (Some(thread), Some((next, _))) => thread == next,
        _ => false,
    }
}

/// All positions, in order, and whether there is a reason to stop at each.
fn look<R: Abort + AllocGlobal>(
    rt: &R,
    history: &mut History,
    case: &Case,
) -> Vec<(Position, bool)> {
    let mut all = Vec::new(rt.alloc());
    go_to(rt, history, Position::at_event(0));
    let mut before = bytes_under(history, case.watch);
    let mut was_seen = false;
    for _ in 0..1_000_000 {
        let position = history.position();
        let bytes = bytes_under(history, case.watch);
        let stops = is_hit(history, case.breakpoint)
            || (case.event_ends && position.steps == 0)
            || is_step_of(history, case.thread)
            || bytes != before
            || was_seen;
        before = bytes;
        was_seen = is_seen(history, case.watch);
        assert!(rt; all.push((position, stops)).is_ok(), "memory for positions");
        if position.events >= history.events().len() {
            return all;
        }
        history.step_forward();
    }
    panic!(rt; "a history without an end")
}

/// The least stop behind a place and up to the other, if there is one.
fn least(all: &[(Position, bool)], from: usize, last: usize) -> Option<Position> {
    for at in from.saturating_add(1)..last.saturating_add(1) {
        if let Some((position, true)) = all.get(at) {
            return Some(*position);
        }
    }
    None
}

/// The greatest stop before a place and from the other on, if there is one.
fn greatest(all: &[(Position, bool)], first: usize, from: usize) -> Option<Position> {
    let mut found = None;
    for at in first..from {
        if let Some((position, true)) = all.get(at) {
            found = Some(*position);
        }
    }
    found
}

/// The search forward, which has to be one.
fn forward<R: Abort>(rt: &R, history: &mut History, stops: &Stops, last: Position) -> bool {
    assert!(rt; stops.width() <= 256);
    assert!(rt; history.has(last));
    assert!(rt; history.position().is_up_to(last));
    history.forward(stops, last)
}

/// The search backward, which has to be one.
fn backward<R: Abort>(rt: &R, history: &mut History, stops: &Stops, first: Position) -> bool {
    assert!(rt; stops.width() <= 256);
    assert!(rt; history.has(first));
    assert!(rt; first.is_up_to(history.position()));
    history.backward(stops, first)
}

/// Both searches between two places.
fn search<R: Abort>(
    rt: &R,
    history: &mut History,
    stops: &Stops,
    all: &[(Position, bool)],
    low: usize,
    high: usize,
) {
    let (Some((first, _)), Some((last, _))) = (all.get(low), all.get(high)) else {
        return;
    };
    go_to(rt, history, *first);
    let found = forward(rt, history, stops, *last);
    let want = least(all, low, high);
    expect_eq(rt, found, want.is_some());
    expect_eq(rt, history.position(), want.unwrap_or(*last));
    go_to(rt, history, *last);
    let found = backward(rt, history, stops, *first);
    let want = greatest(all, low, high);
    expect_eq(rt, found, want.is_some());
    expect_eq(rt, history.position(), want.unwrap_or(*first));
}

/// The reasons of a case.
fn stops_of<R: Abort>(rt: &R, case: &Case) -> Stops {
    let mut stops = Stops::new();
    if let Some(breakpoint) = case.breakpoint {
        assert!(rt; stops.breakpoints.try_push(breakpoint).is_ok());
    }
    if let Some(watch) = case.watch {
        assert!(rt; stops.watches.try_push(watch).is_ok());
    }
    stops.event_ends = case.event_ends;
    stops.thread = case.thread;
    stops
}

/// Searches between many pairs of positions of a case.
fn compare<R: Abort + AllocGlobal>(rt: &R, case: &Case) {
    let mut history = history_of(rt, case.words, case.steps, case.kept);
    let all = look(rt, &mut history, case);
    let stops = stops_of(rt, case);
    let count = all.len() as u64;
    assert!(rt; count > 0);
    let mut seed = 12_345u64;
    for _ in 0..70 {
        seed = seed
            .wrapping_mul(6_364_136_223_846_793_005)
            .wrapping_add(1_442_695_040_888_963_407);
        let one = ((seed >> 33) % count) as usize;
        let other = ((seed >> 13) % count) as usize;
        search(
            rt,
            &mut history,
            &stops,
            all.as_slice(),
            one.min(other),
            one.max(other),
        );
    }
    search(rt, &mut history, &stops, all.as_slice(), 0, all.len() - 1);
}

/// The counter of the guest of four threads, at address 0x3000.
const COUNTER: Watch = Watch {
    kind: WatchKind::Changes,
    first: 0x3000,
    last: 0x3003,
};

#[test]
fn searches_find_what_a_look_at_each_finds(rt: HostRuntime) {
    let case = |words, steps, kept, breakpoint, watch, event_ends| Case {
        words,
        steps,
        kept,
        breakpoint,
        watch,
        event_ends,
        thread: None,
    };
    let worker = Breakpoint {
        address: 0x1070,
        thread: None,
    };
    let of_two = Breakpoint {
        address: 0x1078,
        thread: Some(2),
    };
    let two_pages = Watch {
        kind: WatchKind::Changes,
        first: 0xfff,
        last: 0x1003,
    };
    let outside = Watch {
        kind: WatchKind::Changes,
        first: 0xffff_ffff,
        last: 0xffff_ffff,
    };
    compare(&rt, &case(&COUNTERS, 13, 1, Some(worker), None, false));
    compare(&rt, &case(&COUNTERS, 13, 20, Some(of_two), None, false));
    compare(&rt, &case(&COUNTERS, 5, 7, None, Some(COUNTER), false));
    compare(
        &rt,
        &case(&COUNTERS, 50, 3, Some(of_two), Some(COUNTER), false),
    );
    compare(&rt, &case(&BOUNDED, 9, 50, None, None, true));
    compare(&rt, &case(&PAIR, 9, 1_000, None, Some(two_pages), false));
    compare(&rt, &case(&PAIR, 9, 5, None, Some(outside), false));
    let plain = |words, steps, kept| case(words, steps, kept, None, None, false);
    compare(&rt, &plain(&COUNTERS, 13, 1).with_steps_of(3));
    compare(&rt, &plain(&COUNTERS, 50, 20).with_steps_of(1));
    compare(&rt, &plain(&BOUNDED, 9, 50).with_steps_of(2));
    let watched = case(&COUNTERS, 30, 7, Some(worker), Some(COUNTER), false);
    compare(&rt, &watched.with_steps_of(4));
}

/// Searches of the guest of four threads that have a watch alone, or a breakpoint or the steps of a thread beside it.
fn compare_watched<R: Abort + AllocGlobal>(rt: &R, kind: WatchKind, first: u32, last: u32) {
    let case = |steps, kept, breakpoint| Case {
        words: &COUNTERS,
        steps,
        kept,
        breakpoint,
        watch: Some(Watch { kind, first, last }),
        event_ends: false,
        thread: None,
    };
    let worker = Breakpoint {
        address: 0x1070,
        thread: None,
    };
    compare(rt, &case(5, 7, None));
    compare(rt, &case(50, 3, Some(worker)));
    compare(rt, &case(13, 20, None).with_steps_of(3));
}

#[test]
fn searches_find_loads_and_stores(rt: HostRuntime) {
    for kind in [WatchKind::Loads, WatchKind::Accesses] {
        compare_watched(&rt, kind, 0x3000, 0x3003);
        compare_watched(&rt, kind, 0x2fff, 0x3000);
        compare_watched(&rt, kind, 0x3003, 0x3010);
        compare_watched(&rt, kind, 0x3004, 0x3004);
    }
}
