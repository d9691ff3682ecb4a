//! Guests, word by word, of which tests in more than one crate run each.

/// A program of six words that puts an `A` and exits with status 0.
pub const IMAGE: [u8; 24] = [
    0x13, 0x05, 0x10, 0x04, 0x93, 0x08, 0x20, 0x00, 0x73, 0x00, 0x00, 0x00, 0x13, 0x05, 0x00, 0x00,
    0x93, 0x08, 0x10, 0x00, 0x73, 0x00, 0x00, 0x00,
];

/// The same, as words.
pub const SIX_WORDS: [u32; 6] = [
    0x04100513, 0x00200893, 0x00000073, 0x00000513, 0x00100893, 0x00000073,
];

/// Four threads that fight for one mutex: each counts up a shared counter twenty times, in three steps. The counter is put at
/// the end, 80.
pub const COUNTERS: [u32; 39] = [
    0x00300413, // addi x8, x0, 3
    // create:
    0x00001537, // lui x10, 1
    0x06450513, // addi x10, x10, 100
    0x00000593, // addi x11, x0, 0
    0x00000613, // addi x12, x0, 0
    0x00000693, // addi x13, x0, 0
    0x00a00893, // addi x17, x0, 10
    0x00000073, // ecall
    0xfff40413, // addi x8, x8, -1
    0xfe0410e3, // bne x8, x0, create
    0x03c000ef, // jal x1, worker
    0x00200413, // addi x8, x0, 2
    0x00500493, // addi x9, x0, 5
    // join:
    0x00040513, // addi x10, x8, 0
    0x00b00893, // addi x17, x0, 11
    0x00000073, // ecall
    0x00140413, // addi x8, x8, 1
    0xfe9418e3, // bne x8, x9, join
    0x000032b7, // lui x5, 3
    0x0002a503, // lw x10, 0(x5)
    0x00200893, // addi x17, x0, 2
    0x00000073, // ecall
    0x00000513, // addi x10, x0, 0
    0x00100893, // addi x17, x0, 1
    0x00000073, // ecall
    // worker:
    0x01400313, // addi x6, x0, 20
    0x000032b7, // lui x5, 3
    // round:
    0x00005537, // lui x10, 5
    0x01600893, // addi x17, x0, 22
    0x00000073, // ecall
    0x0002a383, // lw x7, 0(x5)
    0x00138393, // addi x7, x7, 1
    0x0072a023, // sw x7, 0(x5)
    0x00005537, // lui x10, 5
    0x01900893, // addi x17, x0, 25
    0x00000073, // ecall
    0xfff30313, // addi x6, x6, -1
    0xfc031ce3, // bne x6, x0, round
    0x00008067, // jalr x0, 0(x1)
];

/// Two producers and two consumers over a buffer of two places: each producer puts 10 to 1, and the sum, 110, is
/// put to the console at the end. One condition is for a place that is free, one for a place that is full.
pub const BOUNDED: [u32; 100] = [
    0x00200413, // addi x8, x0, 2
    // producers:
    0x00001537, // lui x10, 1
    0x08850513, // addi x10, x10, producer
    0x00000593, // addi x11, x0, 0
    0x00000613, // addi x12, x0, 0
    0x00000693, // addi x13, x0, 0
    0x00a00893, // addi x17, x0, 10
    0x00000073, // ecall
    0xfff40413, // addi x8, x8, -1
    0xfe0410e3, // bne x8, x0, producers
    0x00200413, // addi x8, x0, 2
    // consumers:
    0x00001537, // lui x10, 1
    0x10850513, // addi x10, x10, consumer
    0x00000593, // addi x11, x0, 0
    0x00000613, // addi x12, x0, 0
    0x00000693, // addi x13, x0, 0
    0x00a00893, // addi x17, x0, 10
    0x00000073, // ecall
    0xfff40413, // addi x8, x8, -1
    0xfe0410e3, // bne x8, x0, consumers
    0x00200413, // addi x8, x0, 2
    0x00600493, // addi x9, x0, 6
    // join:
    0x00040513, // addi x10, x8, 0
    0x00b00893, // addi x17, x0, 11
    0x00000073, // ecall
    0x00140413, // addi x8, x8, 1
    0xfe9418e3, // bne x8, x9, join
    0x000032b7, // lui x5, 3
    0x00c2a503, // lw x10, 12(x5)
    0x00200893, // addi x17, x0, 2
    0x00000073, // ecall
    0x00000513, // addi x10, x0, 0
    0x00100893, // addi x17, x0, 1
    0x00000073, // ecall
    // producer:
    0x00a00313, // addi x6, x0, 10
    0x000032b7, // lui x5, 3
    // fill:
    0x00005537, // lui x10, 5
    0x01600893, // addi x17, x0, 22
    0x00000073, // ecall
    // full:
    0x0002a383, // lw x7, 0(x5)
    0x00200e13, // addi x28, x0, 2
    0x01c39e63, // bne x7, x28, put
    0x00006537, // lui x10, 6
    0x00050513, // addi x10, x10, 0
    0x000055b7, // lui x11, 5
    0x02000893, // addi x17, x0, 32
    0x00000073, // ecall
    0xfe1ff06f, // jal x0, full
    // put:
    0x0082a483, // lw x9, 8(x5)
    0x00249e13, // slli x28, x9, 2
    0x005e0e33, // add x28, x28, x5
    0x006e2823, // sw x6, 16(x28)
    0x0014c493, // xori x9, x9, 1
    0x0092a423, // sw x9, 8(x5)
    0x00138393, // addi x7, x7, 1
    0x0072a023, // sw x7, 0(x5)
    0x00006537, // lui x10, 6
    0x00450513, // addi x10, x10, 4
    0x02200893, // addi x17, x0, 34
    0x00000073, // ecall
    0x00005537, // lui x10, 5
    0x01900893, // addi x17, x0, 25
    0x00000073, // ecall
    0xfff30313, // addi x6, x6, -1
    0xf80318e3, // bne x6, x0, fill
    0x00008067, // jalr x0, 0(x1)
    // consumer:
    0x00a00313, // addi x6, x0, 10
    0x000032b7, // lui x5, 3
    // drain:
    0x00005537, // lui x10, 5
    0x01600893, // addi x17, x0, 22
    0x00000073, // ecall
    // empty:
    0x0002a383, // lw x7, 0(x5)
    0x00039e63, // bne x7, x0, take
    0x00006537, // lui x10, 6
    0x00450513, // addi x10, x10, 4
    0x000055b7, // lui x11, 5
    0x02000893, // addi x17, x0, 32
    0x00000073, // ecall
    0xfe5ff06f, // jal x0, empty
    // take:
    0x0042a483, // lw x9, 4(x5)
    0x00249e13, // slli x28, x9, 2
    0x005e0e33, // add x28, x28, x5
    0x010e2e83, // lw x29, 16(x28)
    0x0014c493, // xori x9, x9, 1
    0x0092a223, // sw x9, 4(x5)
    0xfff38393, // addi x7, x7, -1
    0x0072a023, // sw x7, 0(x5)
    0x00c2af03, // lw x30, 12(x5)
    0x01df0f33, // add x30, x30, x29
    0x01e2a623, // sw x30, 12(x5)
    0x00006537, // lui x10, 6
    0x00050513, // addi x10, x10, 0
    0x02200893, // addi x17, x0, 34
    0x00000073, // ecall
    0x00005537, // lui x10, 5
    0x01900893, // addi x17, x0, 25
    0x00000073, // ecall
    0xfff30313, // addi x6, x6, -1
    0xf80314e3, // bne x6, x0, drain
    0x00008067, // jalr x0, 0(x1)
];

/// Three threads that sleep until 60, 20 and 40, and then put that byte.
pub const SLEEPERS: [u32; 39] = [
    0x00001537, // lui x10, 1
    0x07c50513, // addi x10, x10, sleeper
    0x03c00593, // addi x11, x0, 60
    0x00000613, // addi x12, x0, 0
    0x00000693, // addi x13, x0, 0
    0x00a00893, // addi x17, x0, 10
    0x00000073, // ecall
    0x00001537, // lui x10, 1
    0x07c50513, // addi x10, x10, sleeper
    0x01400593, // addi x11, x0, 20
    0x00000613, // addi x12, x0, 0
    0x00000693, // addi x13, x0, 0
    0x00a00893, // addi x17, x0, 10
    0x00000073, // ecall
    0x00001537, // lui x10, 1
    0x07c50513, // addi x10, x10, sleeper
    0x02800593, // addi x11, x0, 40
    0x00000613, // addi x12, x0, 0
    0x00000693, // addi x13, x0, 0
    0x00a00893, // addi x17, x0, 10
    0x00000073, // ecall
    0x00200413, // addi x8, x0, 2
    0x00500493, // addi x9, x0, 5
    // join:
    0x00040513, // addi x10, x8, 0
    0x00b00893, // addi x17, x0, 11
    0x00000073, // ecall
    0x00140413, // addi x8, x8, 1
    0xfe9418e3, // bne x8, x9, join
    0x00000513, // addi x10, x0, 0
    0x00100893, // addi x17, x0, 1
    0x00000073, // ecall
    // sleeper:
    0x00050313, // addi x6, x10, 0
    0x00000593, // addi x11, x0, 0
    0x00500893, // addi x17, x0, 5
    0x00000073, // ecall
    0x00030513, // addi x10, x6, 0
    0x00200893, // addi x17, x0, 2
    0x00000073, // ecall
    0x00008067, // jalr x0, 0(x1)
];

/// Two threads that read the input to its end and add it up; the sum is put to the console at the end.
pub const READERS: [u32; 41] = [
    0x00200413, // addi x8, x0, 2
    // readers:
    0x00001537, // lui x10, 1
    0x06050513, // addi x10, x10, reader
    0x00000593, // addi x11, x0, 0
    0x00000613, // addi x12, x0, 0
    0x00000693, // addi x13, x0, 0
    0x00a00893, // addi x17, x0, 10
    0x00000073, // ecall
    0xfff40413, // addi x8, x8, -1
    0xfe0410e3, // bne x8, x0, readers
    0x00200413, // addi x8, x0, 2
    0x00400493, // addi x9, x0, 4
    // join:
    0x00040513, // addi x10, x8, 0
    0x00b00893, // addi x17, x0, 11
    0x00000073, // ecall
    0x00140413, // addi x8, x8, 1
    0xfe9418e3, // bne x8, x9, join
    0x000032b7, // lui x5, 3
    0x00c2a503, // lw x10, 12(x5)
    0x00200893, // addi x17, x0, 2
    0x00000073, // ecall
    0x00000513, // addi x10, x0, 0
    0x00100893, // addi x17, x0, 1
    0x00000073, // ecall
    // reader:
    0x000032b7, // lui x5, 3
    0xfff00313, // addi x6, x0, -1
    // read:
    0x00300893, // addi x17, x0, 3
    0x00000073, // ecall
    0x02650863, // beq x10, x6, done
    0x00050393, // addi x7, x10, 0
    0x00005537, // lui x10, 5
    0x01600893, // addi x17, x0, 22
    0x00000073, // ecall
    0x00c2af03, // lw x30, 12(x5)
    0x007f0f33, // add x30, x30, x7
    0x01e2a623, // sw x30, 12(x5)
    0x00005537, // lui x10, 5
    0x01900893, // addi x17, x0, 25
    0x00000073, // ecall
    0xfcdff06f, // jal x0, read
    // done:
    0x00008067, // jalr x0, 0(x1)
];

/// Three threads with the arguments 1, 2 and 3. In each of four rounds a thread adds its argument to its own word and
/// waits at a barrier of three; the last to come puts the sum of the words, and all wait there once more. At the end the
/// barrier is destroyed, and the answer put.
pub const ROUNDS: [u32; 54] = [
    0x00006537, // lui x10, 6
    0x00300593, // addi x11, x0, 3
    0x02800893, // addi x17, x0, 40
    0x00000073, // ecall
    0x00300413, // addi x8, x0, 3
    // create:
    0x00001537, // lui x10, 1
    0x07450513, // addi x10, x10, worker
    0x00040593, // addi x11, x8, 0
    0x00000613, // addi x12, x0, 0
    0x00000693, // addi x13, x0, 0
    0x00a00893, // addi x17, x0, 10
    0x00000073, // ecall
    0xfff40413, // addi x8, x8, -1
    0xfe0410e3, // bne x8, x0, create
    0x00200413, // addi x8, x0, 2
    0x00500493, // addi x9, x0, 5
    // join:
    0x00040513, // addi x10, x8, 0
    0x00b00893, // addi x17, x0, 11
    0x00000073, // ecall
    0x00140413, // addi x8, x8, 1
    0xfe9418e3, // bne x8, x9, join
    0x00006537, // lui x10, 6
    0x02900893, // addi x17, x0, 41
    0x00000073, // ecall
    0x00200893, // addi x17, x0, 2
    0x00000073, // ecall
    0x00000513, // addi x10, x0, 0
    0x00100893, // addi x17, x0, 1
    0x00000073, // ecall
    // worker:
    0x00050313, // addi x6, x10, 0
    0x000033b7, // lui x7, 3
    0x00231293, // slli x5, x6, 2
    0x007282b3, // add x5, x5, x7
    0x00000493, // addi x9, x0, 0
    0x00400413, // addi x8, x0, 4
    // round:
    0x006484b3, // add x9, x9, x6
    0x0092a023, // sw x9, 0(x5)
    0x00006537, // lui x10, 6
    0x02a00893, // addi x17, x0, 42
    0x00000073, // ecall
    0x02050063, // beq x10, x0, leave
    0x0043a503, // lw x10, 4(x7)
    0x0083a583, // lw x11, 8(x7)
    0x00b50533, // add x10, x10, x11
    0x00c3a583, // lw x11, 12(x7)
    0x00b50533, // add x10, x10, x11
    0x00200893, // addi x17, x0, 2
    0x00000073, // ecall
    // leave:
    0x00006537, // lui x10, 6
    0x02a00893, // addi x17, x0, 42
    0x00000073, // ecall
    0xfff40413, // addi x8, x8, -1
    0xfa041ee3, // bne x8, x0, round
    0x00008067, // jalr x0, 0(x1)
];

/// Two writers and two readers of a pair of words, under one read-write lock. Each writer adds 1 to both words ten times;
/// each reader looks ten times whether they are equal, and sets a mark where they are not. At the end the first word is
/// put, 20, with 64 more where the mark is set.
pub const PAIR: [u32; 70] = [
    0x00200413, // addi x8, x0, 2
    // writers:
    0x00001537, // lui x10, 1
    0x09450513, // addi x10, x10, writer
    0x00000593, // addi x11, x0, 0
    0x00000613, // addi x12, x0, 0
    0x00000693, // addi x13, x0, 0
    0x00a00893, // addi x17, x0, 10
    0x00000073, // ecall
    0xfff40413, // addi x8, x8, -1
    0xfe0410e3, // bne x8, x0, writers
    0x00200413, // addi x8, x0, 2
    // readers:
    0x00001537, // lui x10, 1
    0x0d850513, // addi x10, x10, reader
    0x00000593, // addi x11, x0, 0
    0x00000613, // addi x12, x0, 0
    0x00000693, // addi x13, x0, 0
    0x00a00893, // addi x17, x0, 10
    0x00000073, // ecall
    0xfff40413, // addi x8, x8, -1
    0xfe0410e3, // bne x8, x0, readers
    0x00200413, // addi x8, x0, 2
    0x00600493, // addi x9, x0, 6
    // join:
    0x00040513, // addi x10, x8, 0
    0x00b00893, // addi x17, x0, 11
    0x00000073, // ecall
    0x00140413, // addi x8, x8, 1
    0xfe9418e3, // bne x8, x9, join
    0x000032b7, // lui x5, 3
    0x0002a503, // lw x10, 0(x5)
    0x0082a303, // lw x6, 8(x5)
    0x00631313, // slli x6, x6, 6
    0x00650533, // add x10, x10, x6
    0x00200893, // addi x17, x0, 2
    0x00000073, // ecall
    0x00000513, // addi x10, x0, 0
    0x00100893, // addi x17, x0, 1
    0x00000073, // ecall
    // writer:
    0x00a00313, // addi x6, x0, 10
    0x000032b7, // lui x5, 3
    // write:
    0x00007537, // lui x10, 7
    0x03600893, // addi x17, x0, 54
    0x00000073, // ecall
    0x0002a383, // lw x7, 0(x5)
    0x00138393, // addi x7, x7, 1
    0x0072a023, // sw x7, 0(x5)
    0x0042a383, // lw x7, 4(x5)
    0x00138393, // addi x7, x7, 1
    0x0072a223, // sw x7, 4(x5)
    0x00007537, // lui x10, 7
    0x03800893, // addi x17, x0, 56
    0x00000073, // ecall
    0xfff30313, // addi x6, x6, -1
    0xfc0316e3, // bne x6, x0, write
    0x00008067, // jalr x0, 0(x1)
    // reader:
    0x00a00313, // addi x6, x0, 10
    0x000032b7, // lui x5, 3
    // read:
    0x00007537, // lui x10, 7
    0x03400893, // addi x17, x0, 52
    0x00000073, // ecall
    0x0002a383, // lw x7, 0(x5)
    0x0042ae03, // lw x28, 4(x5)
    0x01c38663, // beq x7, x28, same
    0x00100e93, // addi x29, x0, 1
    0x01d2a423, // sw x29, 8(x5)
    // same:
    0x00007537, // lui x10, 7
    0x03800893, // addi x17, x0, 56
    0x00000073, // ecall
    0xfff30313, // addi x6, x6, -1
    0xfc0318e3, // bne x6, x0, read
    0x00008067, // jalr x0, 0(x1)
];

/// Jumps to itself.
pub const LOOPS: [u32; 1] = [0x0000006f];

/// Makes a key with a destructor, sets its value to 67, and ends: the destructor puts the value.
pub const PUTS_ITS_VALUE: [u32; 13] = [
    0x00001537, // lui x10, 1
    0x02850513, // addi x10, x10, destructor
    0x04600893, // addi x17, x0, 70
    0x00000073, // ecall
    0x00058513, // addi x10, x11, 0
    0x04300593, // addi x11, x0, 67
    0x04800893, // addi x17, x0, 72
    0x00000073, // ecall
    0x00d00893, // addi x17, x0, 13
    0x00000073, // ecall
    // destructor:
    0x00200893, // addi x17, x0, 2
    0x00000073, // ecall
    0x00008067, // jalr x0, 0(x1)
];
