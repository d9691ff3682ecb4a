//! Several guest threads.

use crate::image_service::expect_replies;

/// Creates a thread that puts a B, joins it and exits.
const JOINS: [u32; 13] = [
    0x00001537, 0x02850513, 0x04200593, 0x00a00893, 0x00000073, 0x00058513, 0x00b00893, 0x00000073,
    0x00100893, 0x00000073, 0x00200893, 0x00000073, 0x00008067,
];

#[test]
fn creates_and_joins(rt: HostRuntime) {
    expect_replies(
        &rt,
        &JOINS,
        b"place 0 1\nrun 0 99\nplace 0 2\nrun 0 99\nplace 0 1\nrun 0 99\ncommit\n",
        b"ok 1 placed\nok 2 ran 8 off\nok 3 placed\nok 4 ran 4 off\nok 5 placed\nok 6 ran 2 end\nack 6\nout 0 42\n",
    );
}

#[test]
fn auto_places_the_planned_thread(rt: HostRuntime) {
    expect_replies(
        &rt,
        &JOINS,
        b"auto 0 99\nauto 0 99\nauto 0 99\ncommit\n",
        b"ok 1 placed\nok 2 ran 8 off\nok 3 placed\nok 4 ran 4 off\nok 5 placed\nok 6 ran 2 end\nack 6\nout 0 42\n",
    );
}
