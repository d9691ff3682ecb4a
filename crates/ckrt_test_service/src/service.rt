//! A service of a session, for the other tests.

use crate::expect::{expect_bytes, expect_eq};
use crate::small_disk::recovered_in_memory;
use ckrt_disk::Disk;
use ckrt_main::serve;
use ckrt_recovery::Session;
use std::process::Abort;

/// What a service of the session writes for these lines.
pub fn replies<R: Abort + AllocGlobal, D: Disk>(
    rt: &R,
    session: &mut Session<D>,
    lines: &[u8],
) -> Vec<u8> {
    let mut reader = lines;
    let mut writer = Vec::new(rt.alloc());
    expect_eq(rt, serve(&mut reader, &mut writer, session), Ok(()));
    writer
}

/// A service of the session writes this for these lines.
pub fn expect_replies<R: Abort + AllocGlobal, D: Disk>(
    rt: &R,
    session: &mut Session<D>,
    lines: &[u8],
    want: &[u8],
) {
    let text = replies(rt, session, lines);
    expect_bytes(rt, text.as_slice(), want);
}

/// What these lines get of the program on this disk, and the disk afterwards.
pub fn lived<R: Abort + AllocGlobal>(rt: &R, disk: Vec<u8>, lines: &[u8], want: &[u8]) -> Vec<u8> {
    let mut session = recovered_in_memory(rt, disk);
    expect_replies(rt, &mut session, lines, want);
    session.into_disk().into_image()
}
