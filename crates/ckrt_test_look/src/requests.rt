//! What packets ask. The frames are those of recorded sessions of gdb, and some that no gdb sends.

use crate::packets::{expect_asked, text};
use ckrt_gdb_forms::{Choice, Mark, Motion, Request};

#[test]
fn gdb_connects(rt: HostRuntime) {
    expect_asked(&rt, b"$vMustReplyEmpty#3a", Request::Unknown);
    expect_asked(
        &rt,
        b"$QStartNoAckMode#b0",
        Request::WithoutAcknowledgements,
    );
    expect_asked(&rt, b"$Hg0#df", Request::Examine(Choice::Any));
    expect_asked(
        &rt,
        b"$qXfer:features:read:target.xml:0,1000#0c",
        Request::Description(0, 0x1000),
    );
    expect_asked(&rt, b"$qTStatus#49", Request::Unknown);
    expect_asked(&rt, b"$?#3f", Request::LastStop);
    expect_asked(&rt, b"$qXfer:threads:read::0,1000#92", Request::Unknown);
    expect_asked(&rt, b"$qAttached#8f", Request::IsAttached);
    expect_asked(&rt, b"$Hc-1#09", Request::Choose(Choice::All));
    expect_asked(&rt, b"$qOffsets#4b", Request::Unknown);
    expect_asked(&rt, b"$qSymbol::#5b", Request::Symbols);
    expect_asked(&rt, b"$qfThreadInfo#bb", Request::FirstThreads);
    expect_asked(&rt, b"$qsThreadInfo#c8", Request::MoreThreads);
}

#[test]
fn gdb_looks(rt: HostRuntime) {
    expect_asked(&rt, b"$g#67", Request::Registers);
    expect_asked(&rt, b"$m1200,40#c0", Request::Memory(0x1200, 0x40));
    expect_asked(&rt, b"$m5e40,40#fb", Request::Memory(0x5e40, 0x40));
    expect_asked(&rt, b"$Hg3#e2", Request::Examine(Choice::One(3)));
    expect_asked(&rt, b"$T5#89", Request::IsAlive(Choice::One(5)));
    expect_asked(
        &rt,
        b"$qThreadExtraInfo,2#b7",
        Request::ThreadText(Choice::One(2)),
    );
    expect_asked(&rt, b"$qCRC:1000,11a0#63", Request::Unknown);
    expect_asked(&rt, b"$X2300,4:\x01\x00\x00\x00#b8", Request::Change);
    expect_asked(&rt, b"$G00#a7", Request::Change);
    expect_asked(&rt, b"$P20=00#4f", Request::Change);
    expect_asked(&rt, b"$M0,0:#13", Request::Change);
}

#[test]
fn gdb_stops_and_goes(rt: HostRuntime) {
    expect_asked(
        &rt,
        b"$Z0,120c,4#0c",
        Request::Insert(Mark::Execution(0x120c)),
    );
    expect_asked(
        &rt,
        b"$z0,120c,4#2c",
        Request::Remove(Mark::Execution(0x120c)),
    );
    expect_asked(
        &rt,
        b"$Z2,2d04,4#12",
        Request::Insert(Mark::Writes(0x2d04, 4)),
    );
    expect_asked(
        &rt,
        b"$z2,2d04,4#32",
        Request::Remove(Mark::Writes(0x2d04, 4)),
    );
    expect_asked(&rt, b"$vCont?#49", Request::Motions);
    expect_asked(&rt, b"$vCont;c#a8", Request::Move(Motion::Continue));
    expect_asked(&rt, b"$vCont;C0b:3;c#25", Request::Move(Motion::Continue));
    expect_asked(
        &rt,
        b"$vCont;s:2#24",
        Request::Move(Motion::Step(Choice::One(2))),
    );
    expect_asked(
        &rt,
        b"$vCont;s:3;c#c3",
        Request::Move(Motion::Step(Choice::One(3))),
    );
    expect_asked(
        &rt,
        b"$vCont;c:1;s:2#2d",
        Request::Move(Motion::Step(Choice::One(2))),
    );
    expect_asked(
        &rt,
        b"$vCont;r1254,125c:3;c#b5",
        Request::Move(Motion::StepOut(0x1254, 0x125c, Choice::One(3))),
    );
    expect_asked(&rt, b"$bs#d5", Request::StepBack);
    expect_asked(&rt, b"$bc#c5", Request::ContinueBack);
}

#[test]
fn gdb_commands(rt: HostRuntime) {
    expect_asked(
        &rt,
        b"$qRcmd,706f736974696f6e#10",
        Request::Monitor(text(&rt, b"position")),
    );
    expect_asked(
        &rt,
        b"$vRun;;3130302b33#45",
        Request::Restart(text(&rt, b"100+3")),
    );
    expect_asked(&rt, b"$vRun;#e6", Request::Restart(text(&rt, b"")));
    expect_asked(&rt, b"$!#21", Request::Extended);
    expect_asked(&rt, b"$vKill;a410#33", Request::Kill);
    expect_asked(&rt, b"$k#6b", Request::Kill);
    expect_asked(&rt, b"$D#44", Request::Detach);
}

#[test]
fn arguments_that_cant_be_read_are_told(rt: HostRuntime) {
    expect_asked(&rt, b"$Hgz#29", Request::Malformed);
    expect_asked(&rt, b"$Hx1#f1", Request::Malformed);
    expect_asked(&rt, b"$T#54", Request::Malformed);
    expect_asked(&rt, b"$m12#d0", Request::Malformed);
    expect_asked(&rt, b"$m12,#fc", Request::Malformed);
    expect_asked(&rt, b"$m1000,100000000#0b", Request::Malformed);
    expect_asked(&rt, b"$Z5,1,1#49", Request::Malformed);
    expect_asked(&rt, b"$vCont#0a", Request::Malformed);
    expect_asked(&rt, b"$vCont;t:1#24", Request::Malformed);
    expect_asked(&rt, b"$vCont;s:x#6a", Request::Malformed);
    expect_asked(&rt, b"$qRcmd,6#59", Request::Malformed);
    expect_asked(&rt, b"$#00", Request::Unknown);
}
