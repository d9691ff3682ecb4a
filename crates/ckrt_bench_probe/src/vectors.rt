//! Compares the processor with outside vectors: random programs as an emulator ran them, and words with the texts
//! that a disassembler gave them; and saved tables with those of a second reading of the format. Prints how many agree.

use crate::vector_tables::count_tables;
use anyhow::{Context, Result, ensure};
use ckrt_main::{Config, serve_image};
use ckrt_rv32i::{decode, encode, instr_text, parse_instr};
use std::alloc::Global;
use std::fs;

/// What drives a program: all of it in one Run.
const LINES: &[u8] = b"place 0 1\nrun 0 65535\ncommit\n";

/// The machine that the emulator's runs were taken for.
const CONFIG: Config = Config {
    pages: 16,
    harts: 1,
    journal: 4_096,
};

/// The console's bytes in a text of replies: the last words of the lines `out OFFSET HEX`.
fn console_of(alloc: Global, replies: &str) -> Result<String> {
    let mut console = String::new(alloc);
    for line in replies.lines() {
        if let Some(rest) = line.strip_prefix("out ") {
            let (_, bytes) = rest.split_once(' ').context("an out line has no bytes")?;
            console.push_str(bytes)?;
        }
    }
    Ok(console)
}

/// Runs an image, and gives its console in hexadecimal.
fn console(alloc: Global, image: &[u8]) -> Result<String> {
    let mut lines = LINES;
    let mut replies = Vec::new(alloc);
    serve_image(alloc, image, CONFIG, &mut lines, &mut replies)?;
    let replies = String::from_utf8(replies)?;
    console_of(alloc, replies.as_str())
}

/// Whether the program of a line `NAME IMAGE CONSOLE` puts what the line says.
fn agrees(alloc: Global, line: &str) -> Result<bool> {
    let mut words = line.split_whitespace();
    let _name = words.next();
    let image = words.next().context("a program has no image")?;
    let want = words.next().context("a program has no console")?;
    let image = hex::decode(alloc, image)?;
    Ok(console(alloc, image.as_slice())?.as_str() == want)
}

/// Whether this is the word's text: `-` where the word is no instruction.
fn is_text_of(text: &str, word: u32) -> bool {
    match decode(word) {
        Some(instr) => instr_text(&instr).as_str() == text,
        None => text == "-",
    }
}

/// Whether this is the text's word, if the text is an instruction's.
fn is_word_of(word: u32, text: &str) -> bool {
    match parse_instr(text.as_bytes()) {
        Some(instr) => encode(&instr) == word,
        None => text == "-",
    }
}

/// Whether the word and the text of a line `WORD TEXT` belong together, both ways.
fn reads(line: &str) -> Result<bool> {
    let (word, text) = line.split_once(' ').context("a word has no text")?;
    let word = u32::from_str_radix(word, 16)?;
    Ok(is_text_of(text, word) && is_word_of(word, text))
}

/// How many of the lines are programs that agree; all have to.
fn count_programs(alloc: Global, lines: &str) -> Result<u64> {
    let mut count = 0u64;
    for line in lines.lines() {
        ensure!(agrees(alloc, line)?, "another console: {line}");
        count = count.wrapping_add(1);
    }
    Ok(count)
}

/// How many of the lines are words with their texts; all have to.
fn count_words(lines: &str) -> Result<u64> {
    let mut count = 0u64;
    for line in lines.lines() {
        ensure!(reads(line)?, "another reading: {line}");
        count = count.wrapping_add(1);
    }
    Ok(count)
}

fn compare_programs(rt: &HostRuntime) -> Result<u64> {
    let programs = fs::read_to_string(rt, "programs.txt")?;
    count_programs(rt.alloc(), programs.as_str())
}

fn compare_words(rt: &HostRuntime) -> Result<u64> {
    let words = fs::read_to_string(rt, "texts.txt")?;
    count_words(words.as_str())
}

fn compare_tables(rt: &HostRuntime, version: u32, path: &str) -> Result<u64> {
    let tables = fs::read_to_string(rt, path)?;
    count_tables(rt.alloc(), version, tables.as_str())
}

/// Compares all, and prints how many agree.
pub fn compare_vectors(rt: &HostRuntime) -> Result<()> {
    let count = compare_programs(rt)?;
    println!(rt; "{count} programs agree")?;
    let count = compare_words(rt)?;
    println!(rt; "{count} words and texts agree")?;
    let count = compare_tables(rt, 1, "tables_1.txt")?;
    println!(rt; "{count} saved tables of version 1 agree")?;
    let count = compare_tables(rt, 2, "tables_2.txt")?;
    println!(rt; "{count} saved tables of version 2 agree")?;
    Ok(())
}
