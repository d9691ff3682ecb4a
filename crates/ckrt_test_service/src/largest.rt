//! The largest configuration, with plenty of memory: nothing is out of memory.

use crate::expect::{copied, expect_bytes, expect_eq, filled, memory_disk};
use crate::service::expect_replies;
use crate::small_disk::{format_outcome, recovered};
use ckrt_main::serve_image;
use ckrt_recovery::Config;
use ckrt_test_storage::IMAGE;
use std::process::Abort;

/// 1,024 pages, 8 harts, and a journal of 1,048,576 bytes.
const LARGEST: Config = Config {
    pages: 1_024,
    harts: 8,
    journal: 1_048_576,
};

/// How many bytes a disk of that configuration needs: a block, two areas of 102,400 bytes and the pages, two journals.
const LARGEST_SIZE: usize = 4_096 + 2 * (102_400 + 4_096 * 1_024) + 2 * 1_048_576;

/// The image with zeros after it up to the end of the memory.
fn largest_image<R: Abort + AllocGlobal>(rt: &R) -> Vec<u8> {
    let mut image = copied(rt, &IMAGE);
    image
        .resize(4_096 * 1_023, 0)
        .expect(rt, "memory for an image");
    image
}

const LINES: &[u8] = b"place 7 1\nrun 7 9\ncheckpoint\ntick 1\ncommit\n";

const REPLIES: &[u8] = b"ok 1 placed\nok 2 ran 6 end\nack 2\nout 0 41\nno 1 Ended\nack 2\n";

#[test]
fn the_largest_disk_is_made_run_and_saved(rt: HostRuntime) {
    let image = largest_image(&rt);
    let mut disk = memory_disk(&rt, filled(&rt, 0, LARGEST_SIZE));
    let made = format_outcome(&rt, &mut disk, LARGEST, image.as_slice());
    expect_eq(&rt, made, Ok(()));
    let mut session = recovered(&rt, disk);
    expect_replies(&rt, &mut session, LINES, REPLIES);
    let mut session = recovered(&rt, session.into_disk());
    expect_eq(&rt, session.generation(), 2);
    expect_eq(&rt, session.room(), 1_048_575);
    expect_replies(&rt, &mut session, b"tick 1\n", b"out 0 41\nno 1 Ended\n");
}

#[test]
fn the_largest_machine_is_served_in_memory(rt: HostRuntime) {
    let image = largest_image(&rt);
    let mut lines = LINES;
    let mut replies = Vec::new(rt.alloc());
    let done = serve_image(
        rt.alloc(),
        image.as_slice(),
        LARGEST,
        &mut lines,
        &mut replies,
    );
    expect_eq(&rt, done, Ok(()));
    expect_bytes(&rt, replies.as_slice(), REPLIES);
}
