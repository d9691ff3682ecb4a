//! Disks of version 1, built byte by byte: their programs have no keys, for good, also once they are saved in version 2. Nor do they
//! note their program: the digest of one that does is that of `sha256sum`.

use crate::expect::{
    copied, expect_bytes, expect_eq, expect_part, image_of, memory_disk, old_disk,
};
use crate::service::lived;
use crate::small_disk::formatted;
use ckrt_inspect::inspect;
use ckrt_test_storage::{AREAS, PUTS_ITS_VALUE};
use std::process::Abort;

/// How the program on this disk is listed.
fn expect_listing<R: Abort + AllocGlobal>(rt: &R, disk: &[u8], want: &[u8]) {
    let mut writer = Vec::new(rt.alloc());
    let listed = inspect(rt.alloc(), memory_disk(rt, copied(rt, disk)), &mut writer);
    expect_eq(rt, listed, Ok(()));
    expect_bytes(rt, writer.as_slice(), want);
}

const RUN: &[u8] = b"place 0 1\nrun 0 99\ncommit\n";

const RAN: &[u8] = b"ok 1 placed\nok 2 ran 10 end\nack 2\n";

const ENDED: &[u8] =
    b"events 2\nclock 0\nstatus exit 0\nhart 0 idle\nthread 1 ended 38\nkeys off\n";

/// Its calls on keys answer 38, ENOSYS, with which it ends. The area of a checkpoint is of version 2.
#[test]
fn a_program_of_version_1_has_no_keys(rt: HostRuntime) {
    let disk = lived(&rt, old_disk(&rt, &PUTS_ITS_VALUE), RUN, RAN);
    expect_listing(&rt, disk.as_slice(), ENDED);
    let disk = lived(&rt, disk, b"checkpoint\n", b"ack 2\n");
    expect_part(
        &rt,
        disk.as_slice(),
        AREAS[1] + 32,
        &[176, 0, 0, 0, 2, 0, 0, 0],
    );
    expect_listing(&rt, disk.as_slice(), ENDED);
    lived(&rt, disk, b"tick 1\n", b"no 1 Ended\n");
}

const FRESH: &[u8] = b"events 0\nclock 0\nstatus running\nhart 0 idle\n\
thread 1 joinable ready pc 00001000 enabled deferred none handlers 0\nkeys off\n";

/// Where the mark and the count of keys stand after one thread and no object, and what is after it: neither input nor output.
const MARK: usize = 4_096 + 170;

/// Saved in version 2 before it runs, once in each area, it runs as it would have.
#[test]
fn it_has_none_once_it_is_saved_in_version_2(rt: HostRuntime) {
    let disk = old_disk(&rt, &PUTS_ITS_VALUE);
    expect_listing(&rt, disk.as_slice(), FRESH);
    let disk = lived(&rt, disk, b"checkpoint\n", b"ack 0\n");
    expect_part(
        &rt,
        disk.as_slice(),
        AREAS[1] + 32,
        &[176, 0, 0, 0, 2, 0, 0, 0],
    );
    expect_part(&rt, disk.as_slice(), AREAS[1] + MARK, &[0; 6]);
    expect_listing(&rt, disk.as_slice(), FRESH);
    let disk = lived(&rt, disk, b"checkpoint\n", b"ack 0\n");
    expect_part(
        &rt,
        disk.as_slice(),
        AREAS[0] + 32,
        &[176, 0, 0, 0, 2, 0, 0, 0],
    );
    expect_part(&rt, disk.as_slice(), AREAS[0] + MARK, &[0; 6]);
    let disk = lived(&rt, disk, RUN, RAN);
    expect_listing(&rt, disk.as_slice(), ENDED);
}

/// A disk that is formatted now has the mark.
#[test]
fn a_program_of_version_2_has_keys(rt: HostRuntime) {
    let image = image_of(&rt, &PUTS_ITS_VALUE);
    let disk = formatted(&rt, image.as_slice());
    expect_part(&rt, disk.as_slice(), AREAS[0] + MARK, &[1, 0, 0, 0, 0, 0]);
    let ran = b"ok 1 placed\nok 2 ran 8 on\nack 2\n";
    let disk = lived(&rt, disk, b"place 0 1\nrun 0 8\ncommit\n", ran);
    let listing = b"events 2\nclock 0\nstatus running\nhart 0 1\n\
thread 1 joinable ready pc 00001020 enabled deferred none handlers 0\n\
key 0 00001028\nvalue 1 0 67\n\
program 46030a486b3eefeb488608aa58cc4b195eaf942ebc9457f948fda59e47e8da9e 52\n";
    expect_listing(&rt, disk.as_slice(), listing);
    let disk = lived(&rt, disk, b"checkpoint\n", b"ack 2\n");
    expect_listing(&rt, disk.as_slice(), listing);
    let ended = b"ok 3 ran 6 end\nack 3\nout 0 43\n";
    lived(&rt, disk, b"run 0 99\ncommit\n", ended);
}
