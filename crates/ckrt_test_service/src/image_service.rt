//! A service of an image, from lines to replies, for the other tests.

use crate::expect::{expect_bytes, expect_eq, image_of, push};
use crate::small_disk::SMALL;
use ckrt_main::{Config, serve_image};
use std::process::Abort;

/// What a service of the image writes for these lines.
pub fn replies<R: Abort + AllocGlobal>(
    rt: &R,
    words: &[u32],
    config: Config,
    lines: &[u8],
) -> Vec<u8> {
    let image = image_of(rt, words);
    let mut reader = lines;
    let mut writer = Vec::new(rt.alloc());
    let done = serve_image(
        rt.alloc(),
        image.as_slice(),
        config,
        &mut reader,
        &mut writer,
    );
    expect_eq(rt, done, Ok(()));
    writer
}

/// A service of the image with the small configuration writes this for these lines.
pub fn expect_replies<R: Abort + AllocGlobal>(rt: &R, words: &[u32], lines: &[u8], want: &[u8]) {
    let text = replies(rt, words, SMALL, lines);
    expect_bytes(rt, text.as_slice(), want);
}

/// The reply to an event that is accepted as number `count`.
pub fn push_reply<R: Abort + AllocGlobal>(rt: &R, replies: &mut Vec<u8>, count: u32, text: &str) {
    let reply = format!(in rt.alloc(); "ok {count} {text}\n").expect(rt, "memory for a text");
    push(rt, replies, reply.as_bytes());
}
