//! What stands after the rows of a file of names: the code of the kit, the rules by which its functions are left, and where it keeps threads.
use crate::fault::NamesFault;
use crate::rows::line_length;
use crate::scan::{decimal, hex_word};
use ckrt_look_recording::{Base, Rule, Saved, Stretch};
use std::alloc::{AllocError, Global};

/// The code of a kit, and what is known of it.
#[derive(Drop)]
pub(crate) struct Rules {
    /// Its stretches.
    pub(crate) kit: Vec<Stretch>,
    /// How its functions are left.
    pub(crate) ups: Vec<Rule>,
    /// Where its table of threads is.
    pub(crate) threads: Option<u32>,
}

/// A line after the rows.
#[derive(Clone, Copy)]
enum Line {
    Kit(Stretch),
    Up(Rule),
    Threads(u32),
}

/// How far the lines have come: of which kind the last one was, and where what it is of ends.
#[derive(Clone, Copy)]
struct Order {
    rank: u8,
    end: u32,
}

/// A word, and what stands after the blank behind it.
fn next_word(line: &[u8]) -> (&[u8], &[u8]) {
    let Some(at) = line.iter().position(|byte| *byte == b' ') else {
        return (line, &[]);
    };
    let (word, rest) = line.split_at(at);
    (word, rest.get(1..).unwrap_or(&[]))
}

/// The number of a word of decimal digits, below 2^32.
fn small(word: &[u8]) -> Option<u32> {
    u32::try_from(decimal(word)?).ok()
}

/// The stretch of two words.
fn stretch(begin: &[u8], size: &[u8]) -> Option<Stretch> {
    let begin = hex_word(begin)?;
    let end = begin.checked_add(hex_word(size)?)?;
    Some(Stretch { begin, end })
}

/// The register that a canonical frame address is counted from.
fn base(word: &[u8]) -> Option<Base> {
    match small(word)? {
        2 => Some(Base::StackPointer),
        8 => Some(Base::FramePointer),
        _ => None,
    }
}

/// Where the value of a register is.
fn saved(word: &[u8], register: &[u8]) -> Option<Saved> {
    if word == register {
        return Some(Saved::Kept);
    }
    Some(Saved::Below(small(word)?))
}

/// The rule of the words after a stretch.
fn read_rule(stretch: Stretch, words: &[u8]) -> Option<Rule> {
    let (register, words) = next_word(words);
    let (offset, words) = next_word(words);
    let (return_address, frame_pointer) = next_word(words);
    Some(Rule {
        stretch,
        base: base(register)?,
        offset: small(offset)?,
        return_address: saved(return_address, b"x1")?,
        frame_pointer: saved(frame_pointer, b"x8")?,
    })
}

/// A line after the rows.
fn read_line(line: &[u8]) -> Option<Line> {
    let (kind, words) = next_word(line);
    if kind == b"threads".as_slice() {
        return Some(Line::Threads(hex_word(words)?));
    }
    let (begin, words) = next_word(words);
    if kind == b"kit".as_slice() {
        return Some(Line::Kit(stretch(begin, words)?));
    }
    let (size, words) = next_word(words);
    if kind == b"up".as_slice() {
        return Some(Line::Up(read_rule(stretch(begin, size)?, words)?));
    }
    None
}

impl Order {
    /// Whether a line may stand next. Each kind stands by rising addresses, and the table of threads once, last.
    fn takes(&mut self, line: &Line) -> bool {
        let (rank, begin, end) = match line {
            Line::Kit(kit) => (1, kit.begin, kit.end),
            Line::Up(rule) => (2, rule.stretch.begin, rule.stretch.end),
            Line::Threads(_) => (3, 0, u32::MAX),
        };
        let last = if rank == self.rank { self.end } else { 0 };
        let fits = rank >= self.rank && begin >= last;
        self.rank = rank;
        self.end = end;
        fits
    }
}

impl Rules {
    /// None.
    pub(crate) fn none(alloc: Global) -> Rules {
        Rules {
            kit: Vec::new(alloc),
            ups: Vec::new(alloc),
            threads: None,
        }
    }

    /// One line more.
    fn push(&mut self, line: Line) -> Result<(), AllocError> {
        match line {
            Line::Kit(stretch) => self.kit.push(stretch)?,
            Line::Up(rule) => self.ups.push(rule)?,
            Line::Threads(address) => self.threads = Some(address),
        }
        Ok(())
    }

    /// Those of the lines from there on.
    pub(crate) fn read(alloc: Global, bytes: &[u8], from: usize) -> Result<Rules, NamesFault> {
        let mut rules = Rules::none(alloc);
        let mut order = Order { rank: 0, end: 0 };
        let mut at = from.min(bytes.len());
        for _ in 0..bytes.len() {
            if at >= bytes.len() {
                return Ok(rules);
            }
            let Some(count) = line_length(bytes, at) else {
                return Err(NamesFault::Row(at as u64));
            };
            let Some(line) = read_line(&bytes[at..at + count]) else {
                return Err(NamesFault::Row(at as u64));
            };
            if !order.takes(&line) {
                return Err(NamesFault::Order(at as u64));
            }
            rules.push(line)?;
            at += count + 1;
        }
        Ok(rules)
    }
}
