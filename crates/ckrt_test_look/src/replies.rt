//! Replies as they go over the line. Where gdb took them in a recorded session, their frames are those; the checksums of the others
//! are worked out by hand.

use crate::expect::expect_eq;
use crate::packets::{expect_reply, frame_size};
use ckrt_gdb_forms::{Cause, Full, Reply};

#[test]
fn short_replies(rt: HostRuntime) {
    expect_reply(&rt, Reply::Unsupported, b"$#00");
    expect_reply(&rt, Reply::Done, b"$OK#9a");
    expect_reply(&rt, Reply::Failed(0x1e), b"$E1e#db");
    expect_reply(&rt, Reply::Failed(1), b"$E01#a6");
    expect_reply(&rt, Reply::Motions, b"$vCont;c;C;s;S;r#0f");
    expect_reply(&rt, Reply::Attached, b"$1#31");
    expect_reply(&rt, Reply::NoMoreThreads, b"$l#6c");
    expect_reply(&rt, Reply::Threads(&[1, 2, 3]), b"$m1,2,3#5b");
    expect_reply(&rt, Reply::Threads(&[1, 31]), b"$m1,1f#61");
    expect_reply(&rt, Reply::Bytes(&[0x13, 1, 1, 0xfc]), b"$130101fc#ef");
    expect_reply(&rt, Reply::Console(b"3.\n"), b"$O332e0a#dd");
}

#[test]
fn stops(rt: HostRuntime) {
    expect_reply(&rt, Reply::Stop(2, Cause::Stopped, 1), b"$T02thread:1;#d4");
    expect_reply(&rt, Reply::Stop(11, Cause::Stopped, 3), b"$T0bthread:3;#06");
    expect_reply(
        &rt,
        Reply::Stop(5, Cause::Written(0x2d04), 2),
        b"$T05watch:2d04;thread:2;#5e",
    );
    expect_reply(
        &rt,
        Reply::Stop(5, Cause::Read(0), 64),
        b"$T05rwatch:0;thread:40;#38",
    );
    expect_reply(
        &rt,
        Reply::Stop(5, Cause::Accessed(u32::MAX), 1),
        b"$T05awatch:ffffffff;thread:1;#f4",
    );
    expect_reply(
        &rt,
        Reply::Stop(5, Cause::Begin, 1),
        b"$T05replaylog:begin;thread:1;#20",
    );
    expect_reply(
        &rt,
        Reply::Stop(5, Cause::End, 1),
        b"$T05replaylog:end;thread:1;#52",
    );
}

#[test]
fn parts_of_a_text(rt: HostRuntime) {
    expect_reply(
        &rt,
        Reply::Part(b"a#b$c*d}", 0, 100),
        b"$la}\x03b}\x04c}\nd}]#58",
    );
    expect_reply(&rt, Reply::Part(b"a#b$c*d}", 2, 3), b"$mb}\x04c#b3");
    expect_reply(&rt, Reply::Part(b"a#b$c*d}", 8, 5), b"$l#6c");
    expect_reply(&rt, Reply::Part(b"a#b$c*d}", u32::MAX, u32::MAX), b"$l#6c");
}

#[test]
fn a_reply_has_a_limit(rt: HostRuntime) {
    expect_eq(&rt, frame_size(&[0; 2_048]), Ok(4_100));
    expect_eq(&rt, frame_size(&[0; 2_049]), Err(Full));
}
